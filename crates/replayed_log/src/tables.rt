// What a worker asks of the log.
ghost use Rattle.std.specs.Prelude.{◌≡◌, ℕ, true, is_some, List, OnErr, OnOk};
ghost use Rattle.events.specs.Shards.{stands_in};
ghost use Rattle.hub_scenes.specs.Spaces.{IndexTry};
ghost use Rattle.hub_scenes.specs.Entries.{arrives};
ghost use Rattle.replay_hub.specs.Values.{has_bit, new_row_of};
ghost use Rattle.replay_worker.specs.Looking.{AllBecome};
ghost use Rattle.replay_slots.specs.Hands.{shard_at};
ghost use Rattle.replayed_log.specs.Replay.{IsReplayOf};

use crate::bits::{bit_of, missing};
use crate::log_replay::LogReplay;
use crate::making::make_step;
use crate::names::ReplayNames;
use crate::tries::{hub_tries, with_tries};
use crate::unfolding::StepUnfolder;
use replay_hub::{Coming, ReplayTerms, Try};
use replay_shards::{ReplayHeld, ReplayShard, ShardedChannel, ShardedRow, first_tries};
use replay_worker::{Arriving, Doing, Looked, ReplayTables};
use std::alloc::{AllocError, Global};
use std::snapshot::Snapshot;

impl<N: ReplayNames, U> ReplayTerms for LogReplay<N, U> {
    type Row = ShardedRow;

    type Channel = ShardedChannel;

    type Shard = ReplayShard;

    type Held = ReplayHeld;

    ghost deploy = { N.deploy };

    ghost steps = { N.steps };

    ghost row_of = { λ r. r };

    ghost channel_of = { λ t. t };

    ghost part_of = { λ x. x };

    ghost in_hand = { shard_at };

    fn add(held: &mut ReplayHeld, number: u32, shard: ReplayShard) {
        held.add(number, shard);
    }

    fn remove(held: &mut ReplayHeld, number: u32) -> Option<ReplayShard> {
        held.remove(number)
    }
}

impl<N: ReplayNames, U: StepUnfolder> ReplayTables for LogReplay<N, U> {
    ghost knows = { IsReplayOf N.deploy N.steps };

    fn hand(&self, alloc: Global) -> Result<ReplayHeld, AllocError> {
        ReplayHeld::new(alloc)
    }

    fn own_shard(&self, _alloc: Global, channel: &ShardedChannel) -> Result<u64, AllocError> {
        Ok(bit_of(channel.shard()))
    }

    fn prepare(
        &self,
        alloc: Global,
        coming: &Coming<ShardedRow>,
    ) -> Result<Arriving<ShardedRow, ShardedChannel>, AllocError> {
        let shards = coming.row.shards();
        let tries = hub_tries(
            alloc,
            first_tries(alloc, &self.rig, &coming.row, coming.from)?,
        )?;
        let next = Snapshot::of(&tries);
        let tasks = with_tries(Vec::new(alloc), tries)?;
        Ok(Arriving {
            shards,
            next,
            tasks,
        })
    }

    fn arrive(
        &self,
        alloc: Global,
        held: &mut ReplayHeld,
        coming: Coming<ShardedRow>,
        shards: u64,
    ) -> Result<(), AllocError>
        requires shards { (k : ℕ) → has_bit shards k ≡ stands_in k coming.row }
        requires held { (k : ℕ) → has_bit shards k ≡ true → is_some (shard_at held.old k) ≡ true }
        ensures back { OnErr result ((k : ℕ) → shard_at held.new k ≡ shard_at held.old k) }
        ensures arrived { OnOk result ((next : List IndexTry) →
            AllBecome (λ x. x) (has_bit shards) (arrives (new_row_of (λ r. r) (λ t. t) coming) next) (shard_at held.old)
            (shard_at held.new)) }
    {
        held.arrive(alloc, coming.row, coming.from, shards)
    }

    fn look(
        &self,
        alloc: Global,
        held: &ReplayHeld,
        tried: &Try<ShardedChannel>,
        shards: u64,
    ) -> Result<Looked<ShardedRow, ShardedChannel>, AllocError> {
        if tried.step as usize >= self.log.steps.len() {
            return Ok(Looked::Idle);
        }
        let Some(wanted) = held.step_shards(&self.log, tried.step) else {
            return Ok(Looked::Idle);
        };
        if missing(wanted, shards) != 0 {
            return Ok(Looked::Wider(wanted));
        }
        let Some(ready) = held.possible(alloc, &self.rig, &self.log, tried.step)? else {
            return Ok(Looked::Idle);
        };
        let step = &self.log.steps[tried.step as usize];
        let doing = make_step::<U>(alloc, &self.prices, self.limit, step, tried, ready)?;
        Ok(Looked::Fits(doing))
    }

    fn finish(&self, held: &mut ReplayHeld, doing: &Doing<ShardedRow, ShardedChannel>) {
        held.commit_done(&self.log, doing.made.step, doing.gone.as_slice());
    }
}
