// Shards in hand.
ghost use Rattle.std.specs.Prelude.{◌≡◌, ◌≢◌, ◌<◌, ◌∷◌, ◌++◌, ℕ, List, true, None, Some, IsSome, IfOk, MatchOption, OnOk, OnErr, length};
ghost use Rattle.calculus.specs.Log.{Step};
ghost use Rattle.event_log.specs.View.{steps_of, IsWritable};
ghost use Rattle.events.specs.Entries.{Making};
ghost use Rattle.replay_space.specs.Rigs.{IsRigOf};
ghost use Rattle.hub_scenes.specs.Spaces.{IndexTry, SeenRow, new_row};
ghost use Rattle.hub_scenes.specs.Entries.{arrives, does};
ghost use Rattle.events.specs.Shards.{stands_in};
ghost use Rattle.replay_rows.specs.Bits.{has_bit};
ghost use Rattle.replay_slots.specs.Hands.{all_shown, parts_of, shard_at, AllBecome, AreSlotsFiled, TouchedBecome};
ghost use Rattle.replay_shards.specs.Ready.{IsReady};
ghost use Rattle.replay_rows.specs.Rows.{find_seen, AreLow};
ghost use Rattle.replay_shards.specs.Taken.{bytes_of, FitsNothing};

use crate::attempt::Attempt;
use crate::fit::fit;
use crate::ready::Ready;
use crate::shard::ReplayShard;
use calculus::Digest;
use event_log::Log;
use replay_rows::bits::only_shard;
use replay_rows::kept::Kept;
use replay_rows::sharded::ShardedRow;
use replay_slots::{Slot, arrive_at, arrive_in, find_in, first_from, settle_all, widened};
use replay_space::Rig;
use std::alloc::{AllocError, Global};
use std::marker::Model;

/// Shards in hand, each at its number, seen as a list of 64 that are there or not.
#[derive(Drop)]
pub struct ReplayHeld {
    pub(crate) slots: Vec<Option<Kept>>,
    // Shards lie only at places from the first of these on, and below the second.
    low: usize,
    high: usize,
}

impl Model for ReplayHeld {
    ghost use Rattle.std.specs.Prelude.{◌≡◌, length};
    ghost use Rattle.std.specs.Coded.{coded_list, coded_option};
    ghost use Rattle.replay_slots.specs.Hands.{InHand};
    ghost use Rattle.replay_shards.specs.Values.{part_code};

    ghost Value = { InHand };

    ghost coded = { coded_list (coded_option part_code) };

    ghost use Rattle.replay_slots.specs.Hands.{parts_of, AreSlotsFiled, LieWithin};

    ghost view = { λ a. parts_of a.slots.items };

    ghost invariant = { λ a. (length a.slots.items ≡ 64) × AreSlotsFiled a.slots.items × LieWithin a.low a.high (parts_of a.slots.items) };
}

impl ReplayHeld {
    /// No shards, with room for 64. Want of memory is the one error.
    pub fn new(alloc: Global) -> Result<ReplayHeld, AllocError>
        ensures { IfOk result (λ h. (k : ℕ) → shard_at h k ≡ None) }
    {
        let mut slots = Vec::new(alloc);
        for _ in 0..64u32 {
            slots.push(None)?;
        }
        Ok(ReplayHeld {
            slots,
            low: 0,
            high: 0,
        })
    }

    /// Puts a shard in hand at this number, where none is. It takes no memory.
    pub fn add(&mut self, number: u32, shard: ReplayShard)
        requires low { number < 64 }
        requires absent { shard_at self.old number ≡ None }
        ensures here { shard_at self.new number ≡ Some shard }
        ensures others { (k : ℕ) → k ≢ number → shard_at self.new k ≡ shard_at self.old k }
    {
        let (low, high) = widened(self.low, self.high, number as usize);
        self.slots[number as usize] = Some(shard.kept);
        self.low = low;
        self.high = high;
    }

    /// Takes the shard of this number out of hand, if it is there. It takes no memory.
    pub fn remove(&mut self, number: u32) -> Option<ReplayShard>
        requires { number < 64 }
        ensures shard { result ≡ shard_at self.old number }
        ensures here { shard_at self.new number ≡ None }
        ensures others { (k : ℕ) → k ≢ number → shard_at self.new k ≡ shard_at self.old k }
    {
        let slot = self.slots[number as usize].take();
        self.low = first_from(self.slots.as_slice(), self.low, self.high);
        match slot {
            None => None,
            Some(kept) => Some(ReplayShard { kept }),
        }
    }

    // The places at which shards lie, with all these.
    fn taken(&self) -> &[Slot]
        ensures filed { AreSlotsFiled result.now }
        ensures shown { all_shown (parts_of result.now) ≡ all_shown self.now }
    {
        match self.slots.get(self.low..self.high) {
            Some(slots) => slots,
            None => self.slots.as_slice(),
        }
    }

    /// A row arrives in each of these shards, which are in hand: those that it stands in. Where memory is wanted, all
    /// stays as it was.
    pub fn arrive(
        &mut self,
        alloc: Global,
        row: ShardedRow,
        from: Option<u32>,
        shards: u64,
    ) -> Result<(), AllocError>
        requires shards { (k : ℕ) → has_bit shards k ≡ stands_in k row }
        requires held { (k : ℕ) → has_bit shards k ≡ true → IsSome (shard_at self.old k) }
        ensures back { OnErr result (self.new ≡ self.old) }
        ensures arrived { OnOk result ((next : List IndexTry) →
            TouchedBecome (has_bit shards) (arrives (new_row from row) next) self.old self.new) }
    {
        match only_shard(shards) {
            Some(number) => arrive_at(alloc, &mut self.slots, row, from, number),
            None => arrive_in(alloc, &mut self.slots, &row, from, shards),
        }
    }

    /// The bits of the shards of all channels of a step's receiver, which is the first row in hand with its id; None
    /// exactly where there is none.
    pub fn step_shards(&self, log: &Log, step: u32) -> Option<u64>
        requires { step < length log.now.steps.items }
        ensures { (before : List Step) (s : Step) (after : List Step) → steps_of log.now.steps.items ≡ before ++ s ∷
            after → length before ≡ step → MatchOption result (find_seen s.receiver (all_shown self.now) ≡ None)
            (λ n. (r : SeenRow) × (find_seen s.receiver (all_shown self.now) ≡ Some r) ×
            ((k : ℕ) → has_bit n k ≡ stands_in k r.row)) }
    {
        match find_in(self.taken(), &log.steps[step as usize].cont) {
            None => None,
            Some(seen) => Some(seen.row.shards()),
        }
    }

    /// Rows in hand that fit a step, and the tries that follow once it is done, but for one that would come too early; None
    /// exactly where no rows in hand do, if ids tell these. Want of memory is the one error.
    pub fn possible(
        &self,
        alloc: Global,
        rig: &Rig,
        log: &Log,
        step: u32,
    ) -> Result<Option<Ready>, AllocError>
        requires step { step < length log.now.steps.items }
        requires writable { IsWritable log.now }
        requires rig { IsRigOf (steps_of log.now.steps.items) rig.now }
        ensures { (before : List Step) (s : Step) (after : List Step) → steps_of log.now.steps.items ≡ before ++ s ∷
            after → length before ≡ step → IfOk result (λ o. MatchOption o
            (FitsNothing (steps_of log.now.steps.items) (all_shown self.now) before s step)
            (IsReady (steps_of log.now.steps.items) (all_shown self.now) before s step)) }
    {
        let attempt = Attempt {
            slots: self.taken(),
            rig,
            steps: log.steps.as_slice(),
            step,
        };
        fit(alloc, &attempt, &log.steps[step as usize])
    }

    /// A step is done, and the rows with these ids leave: each shard in hand becomes what the step makes of it. It takes no
    /// memory.
    pub fn commit_done(&mut self, log: &Log, step: u32, gone: &[Digest])
        requires step { step < length log.now.steps.items }
        requires low { (before : List Step) (s : Step) (after : List Step) → steps_of log.now.steps.items ≡ before ++
            s ∷ after → length before ≡ step → AreLow s (all_shown self.old) }
        ensures { (before : List Step) (s : Step) (after : List Step) → steps_of log.now.steps.items ≡ before ++ s ∷
            after → length before ≡ step → (t : IndexTry) (a : Making) (next : List IndexTry) → a.step ≡ s → a.gone ≡
            bytes_of gone.now → AllBecome (does t a next) self.old self.new }
    {
        settle_all(&mut self.slots, &log.steps[step as usize], gone);
    }
}
