//! What a play came to.
ghost use Rattle.std.specs.Prelude.{◌≡◌, ◌≢◌, ◌<◌, ◌^◌, [], length, map, All, IfOk};
ghost use Rattle.calculus.specs.Form.{IsClosed};
ghost use Rattle.calculus.specs.Runs.{Deploy, Work, work_fault};
ghost use Rattle.calculus.specs.Storing.{IsStorable};
ghost use Rattle.event_log.specs.View.{step_of, TakesInRange};
ghost use Rattle.events.specs.Entries.{steps_of, total_of};
ghost use Rattle.replays.specs.View.{verdict_of};
ghost use Rattle.hub_scenes.specs.Plays.{entries_of};
ghost use Rattle.play_hub.specs.Endings.{play_of};
ghost use Rattle.play_outcome.specs.Runs.{EndedPlay, IsRunOf};

use crate::settling::{ending, rows_left};
use crate::tally::{Tally, tally_of};
use calculus::FaultKind;
use event_log::LogStep;
use play_hub::PlayEntry;
use replays::Verdict;
use shard_tables::ShardTables;
use space_row::Row;
use std::alloc::{AllocError, Global};

/// What a deploy came to.
#[derive(Drop)]
pub struct Played {
    pub verdict: Verdict,
    /// What is charged: the limit where the price passed it, and else the price.
    pub cost: u64,
    /// The steps that were made, in order.
    pub steps: Vec<LogStep>,
    /// What is stored in the end, in no order that is told, where the verdict is Done; else nothing.
    pub rows: Vec<Row>,
    /// What its steps printed.
    pub output: Vec<u8>,
}

/// What the entries of a closed hub and its 64 shards come to, where the price of all is this, the source has this fault, and this is
/// the limit. Want of memory is the one error.
pub fn outcome<T: ShardTables>(
    alloc: Global,
    entries: Vec<PlayEntry>,
    shards: Vec<T::Shard>,
    total: u64,
    fault: Option<FaultKind>,
    limit: u64,
) -> Result<Played, AllocError>
    requires few { length (steps_of (entries_of (play_of entries.items))) < 2 ^ 32 }
    ensures steps { IfOk result (λ played. map step_of played.steps.items ≡ steps_of (entries_of (play_of entries.items))) }
    ensures taken { IfOk result (λ played. All TakesInRange played.steps.items) }
    ensures old { IfOk result (λ played. played.verdict ≢ Verdict.Done → played.rows.items ≡ []) }
    ensures run { (deploy : Deploy) (source : Work) → deploy.limit ≡ limit →
        total_of deploy source (entries_of (play_of entries.items)) ≡ total → work_fault source ≡ fault →
        length shards.items ≡ 64 → IsClosed deploy.process → All IsStorable deploy.rows →
        EndedPlay deploy source (play_of entries.items) (map T.rows shards.items) →
        IfOk result (λ played. IsRunOf deploy (map step_of played.steps.items) (verdict_of played.verdict) played.cost
        played.rows.items played.output.items) }
{
    let Tally {
        steps,
        verdict,
        output,
    } = tally_of(alloc, entries, fault)?;
    let (verdict, cost) = ending(total, verdict, limit);
    let rows = rows_left::<T>(alloc, verdict, shards)?;
    Ok(Played {
        verdict,
        cost,
        steps,
        rows,
        output,
    })
}
