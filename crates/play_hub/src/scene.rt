//! The scene.
ghost use Rattle.std.specs.Prelude.{List};
ghost use Rattle.hub_scenes.specs.Plays.{TouchingEntry};
ghost use Rattle.play_hub.specs.Values.{hub_meaning, hub_lawful};

use crate::entry::PlayEntry;
use crate::terms::PlayTerms;
use group_locks::Scene;
use shard_tables::ShardTables;
use space_row::Row;
use std::marker::PhantomData;

/// The scene of the play of a deploy, with the rows of its store in these tables.
#[derive(Drop)]
pub struct PlayScene<J, T> {
    pub(crate) terms: PhantomData<J>,
    pub(crate) tables: PhantomData<T>,
}

impl<J, T> PlayScene<J, T> {
    /// The scene. It holds nothing.
    pub fn new() -> PlayScene<J, T> {
        PlayScene {
            terms: PhantomData,
            tables: PhantomData,
        }
    }
}

impl<J: PlayTerms + Sync, T: ShardTables + Sync> Scene for PlayScene<J, T> {
    type Entry = PlayEntry;

    type Work = Row;

    type Shard = T::Shard;

    type Held = T::Held;

    ghost Store = { List TouchingEntry };

    ghost meaning = { hub_meaning J.deploy J.source T.rows };

    ghost in_hand = { T.in_hand };

    fn add(&self, held: &mut T::Held, number: u32, shard: T::Shard) {
        T::add(held, number, shard);
    }

    fn remove(&self, held: &mut T::Held, number: u32) -> Option<T::Shard> {
        T::remove(held, number)
    }

    fn touches(&self, entry: &PlayEntry) -> u64 {
        entry.touched
    }

    ghost lawful = { hub_lawful J.deploy J.source T.rows };
}
