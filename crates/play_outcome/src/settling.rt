//! How a play ends at its limit, and what it leaves.
ghost use Rattle.std.specs.Prelude.{◌≡◌, ◌≢◌, [], List, length, IfOk, IsPermutation};
ghost use Rattle.calculus.specs.Rows.{channels, Row as Stored};
ghost use Rattle.events.specs.Found.{Among};
ghost use Rattle.replays.specs.View.{verdict_of};
ghost use Rattle.shard_tables.specs.Hands.{AreShardsOf, IdsDiffer};
ghost use Rattle.play_outcome.specs.Runs.{charge_at, verdict_at};

use replays::Verdict;
use shard_tables::ShardTables;
use space_row::Row;
use std::alloc::{AllocError, Global};

/// The verdict and what is charged at this limit, where the price is this and the first fault gives this verdict.
pub(crate) fn ending(total: u64, verdict: Verdict, limit: u64) -> (Verdict, u64)
    ensures verdict { verdict_of result.0 ≡ verdict_at limit total (verdict_of verdict) }
    ensures charge { result.1 ≡ charge_at limit total }
{
    if total > limit {
        (Verdict::Exhausted, limit)
    } else {
        (verdict, total)
    }
}

/// The rows of these shards, where the play is done; else nothing. Want of memory is the one error.
pub(crate) fn rows_left<T: ShardTables>(
    alloc: Global,
    verdict: Verdict,
    shards: Vec<T::Shard>,
) -> Result<Vec<Row>, AllocError>
    ensures done { verdict ≡ Verdict.Done → (store : List Stored) → IdsDiffer store → length shards.items ≡ 64 →
        AreShardsOf T.rows store shards.items → ((r : Stored) → Among r store → channels r.part ≢ []) →
        IfOk result (λ v. IsPermutation v.items store) }
    ensures other { IfOk result (λ v. verdict ≢ Verdict.Done → v.items ≡ []) }
{
    match verdict {
        Verdict::Done => T::rows_of(alloc, shards),
        _ => Ok(Vec::new(alloc)),
    }
}
