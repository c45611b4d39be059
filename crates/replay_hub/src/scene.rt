//! The scene.
ghost use Rattle.std.specs.Prelude.{◌≡◌, ℕ};
ghost use Rattle.hub_scenes.specs.Spaces.{Space};
ghost use Rattle.replay_hub.specs.Values.{values, values_lawful};

use crate::deed::{Entry, Task};
use crate::terms::ReplayTerms;
use group_locks::Scene;
use std::marker::PhantomData;

/// A replay's scene: rows arrive, and steps of a log are tried.
#[derive(Drop)]
pub struct ReplayScene<J> {
    pub(crate) terms: PhantomData<J>,
}

impl<J> ReplayScene<J> {
    /// The scene. It holds nothing.
    pub fn new() -> ReplayScene<J> {
        ReplayScene { terms: PhantomData }
    }
}

impl<J: ReplayTerms + Sync> Scene for ReplayScene<J> {
    type Entry = Entry<J::Row, J::Channel>;

    type Work = Task<J::Row, J::Channel>;

    type Shard = J::Shard;

    type Held = J::Held;

    ghost Store = { Space };

    ghost meaning = { values J.deploy J.steps J.row_of J.channel_of J.part_of };

    ghost in_hand = { λ held k. J.in_hand held k };

    fn add(&self, held: &mut J::Held, number: u32, shard: J::Shard) {
        J::add(held, number, shard);
    }

    fn remove(&self, held: &mut J::Held, number: u32) -> Option<J::Shard> {
        J::remove(held, number)
    }

    fn touches(&self, entry: &Entry<J::Row, J::Channel>) -> u64 {
        entry.shards
    }

    ghost lawful = { values_lawful J.deploy J.steps J.row_of J.channel_of J.part_of };
}
