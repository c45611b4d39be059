//! What a worker asks of a log and of the shards that it has in hand.
ghost use Rattle.std.specs.Prelude.{◌≡◌, ℕ, List, None, true, is_some, IfOk, OnOk, OnErr};
ghost use Rattle.calculus.specs.Storing.{shard};
ghost use Rattle.event_log.specs.View.{step_of};
ghost use Rattle.events.specs.Shards.{stands_in};
ghost use Rattle.hub_scenes.specs.Spaces.{IndexTry};
ghost use Rattle.hub_scenes.specs.Entries.{arrives};
ghost use Rattle.replay_hub.specs.declared.deed.Did.TheVariants.{Done};
ghost use Rattle.replay_hub.specs.Values.{deed_of, has_bit, new_row_of};
ghost use Rattle.replay_worker.specs.Looking.{AllBecome, AreLow, IsArriving, IsAtItsPlace, Shows};

use calculus::Digest;
use replay_hub::{Coming, Made, ReplayTerms, Task, Try};
use std::alloc::{AllocError, Global};
use std::snapshot::Snapshot;

/// What is known before a row arrives.
#[derive(Drop)]
pub struct Arriving<R, C> {
    /// The bits of the shards that it stands in.
    pub shards: u64,
    /// The try of its first use; none where no step names it.
    pub next: Snapshot<Vec<Try<C>>>,
    /// The same as jobs.
    pub tasks: Vec<Task<R, C>>,
}

/// A step that may be done.
#[derive(Drop)]
pub struct Doing<R, C> {
    pub made: Made<R, C>,
    /// The ids of the rows that leave by it.
    pub gone: Vec<Digest>,
    /// The jobs that it offers: the rows of its body are to arrive, and the next uses of its rows are to be tried.
    pub tasks: Vec<Task<R, C>>,
}

/// What shards in hand show of a try.
#[derive(Drop)]
pub enum Looked<R, C> {
    /// Its step may not be done.
    Idle,
    /// Its receiver stands in more shards than those in hand: the bits of all of its shards.
    Wider(u64),
    /// Its step may be done.
    Fits(Doing<R, C>),
}

/// A log that is replayed, and the rows that arrived, in 64 shards that are numbered from 0. Want of memory is the one
/// error of these calls.
pub trait ReplayTables: ReplayTerms {
    // That it has the log of the steps that the terms name, and the prices and the limit of their deploy.
    ghost knows: { Self → Type 0 };

    /// No shards in hand.
    fn hand(&self, alloc: Global) -> Result<Self::Held, AllocError>
        ensures { IfOk result (λ h. (k : ℕ) → Self.in_hand h k ≡ None) };

    /// The bit of the shard of a channel.
    fn own_shard(&self, alloc: Global, channel: &Self::Channel) -> Result<u64, AllocError>
        ensures { IfOk result (λ n. has_bit n (shard (Self.channel_of channel.now)) ≡ true) };

    /// What is known before a row arrives.
    fn prepare(
        &self,
        alloc: Global,
        coming: &Coming<Self::Row>,
    ) -> Result<Arriving<Self::Row, Self::Channel>, AllocError>
        requires knows { knows self.now }
        ensures { IfOk result (IsArriving Self.steps Self.row_of Self.channel_of coming.now) };

    /// Adds a row that arrives to each shard that it stands in, all of which are in hand. Where memory is wanting all is as
    /// it was.
    fn arrive(
        &self,
        alloc: Global,
        held: &mut Self::Held,
        coming: Coming<Self::Row>,
        shards: u64,
    ) -> Result<(), AllocError>
        requires shards { (k : ℕ) → has_bit shards k ≡ stands_in k (Self.row_of coming.row) }
        requires held { (k : ℕ) → has_bit shards k ≡ true → is_some (Self.in_hand held.old k) ≡ true }
        ensures back { OnErr result ((k : ℕ) → Self.in_hand held.new k ≡ Self.in_hand held.old k) }
        ensures arrived { OnOk result ((next : List IndexTry) →
            AllBecome Self.part_of (has_bit shards) (arrives (new_row_of Self.row_of Self.channel_of coming) next)
            (Self.in_hand held.old) (Self.in_hand held.new)) };

    /// What the shards in hand, which have these bits, show of a try.
    fn look(
        &self,
        alloc: Global,
        held: &Self::Held,
        tried: &Try<Self::Channel>,
        shards: u64,
    ) -> Result<Looked<Self::Row, Self::Channel>, AllocError>
        requires knows { knows self.now }
        requires shards { (k : ℕ) → has_bit shards k ≡ is_some (Self.in_hand held.now k) }
        requires own { has_bit shards (shard (Self.channel_of tried.now.channel)) ≡ true }
        ensures { IfOk result (Shows Self.deploy Self.steps Self.row_of Self.channel_of Self.part_of
            (Self.in_hand held.now) (has_bit shards) tried.now) };

    /// Counts a step that is done in all shards in hand, and takes the rows out that leave by it. It takes no memory.
    fn finish(&self, held: &mut Self::Held, doing: &Doing<Self::Row, Self::Channel>)
        requires knows { knows self.now }
        requires place { IsAtItsPlace Self.steps doing.now.made }
        requires gone { doing.now.gone.items ≡ doing.now.made.gone.value.items }
        requires low { AreLow Self.part_of (Self.in_hand held.old) (step_of doing.now.made.made.value) }
        ensures { AllBecome Self.part_of (λ k. true) (deed_of Self.row_of Self.channel_of (Done doing.now.made))
            (Self.in_hand held.old) (Self.in_hand held.new) };
}
