//! Rows that are taken out of shards.
ghost use Rattle.std.specs.Prelude.{◌≡◌, ◌≢◌, ◌++◌, [], List, eqb, filter, length, map, IfOk, OnOk, IsPermutation};
ghost use Rattle.calculus.specs.Rows.{channels, Row as StoredRow};
ghost use Rattle.events.specs.Found.{Among};
ghost use Rattle.hub_scenes.specs.Spaces.{bare};
ghost use Rattle.replay_store.specs.Stores.{bare_shards, AreShardsOf};
ghost use Rattle.row_shards.specs.Homes.{gathered, home};

use replay_shards::ReplayShard;
use space_row::Row;
use std::alloc::{AllocError, Global};

// Adds those of a shard's rows whose first channel is in the shard of this number. Want of memory is the one error.
fn gather_one(
    alloc: Global,
    rows: &mut Vec<Row>,
    shard: ReplayShard,
    number: usize,
) -> Result<(), AllocError>
    ensures { OnOk result (rows.new.items ≡ rows.old.items ++ filter (λ r. eqb (home r) number) (bare shard.rows)) }
{
    for row in shard.into_rows(alloc)? {
        if row.first_shard() as usize == number {
            rows.push(row.into_row())?;
        }
    }
    Ok(())
}

// The rows of shards in the order of their numbers, each taken out of the shard of its first channel alone. Want of memory is the
// one error.
fn gather(alloc: Global, shards: Vec<ReplayShard>) -> Result<Vec<Row>, AllocError>
    ensures { IfOk result (λ v. v.items ≡ gathered 0 (bare_shards shards.items)) }
{
    let mut rows = Vec::new(alloc);
    let mut number = 0;
    for shard in shards {
        gather_one(alloc, &mut rows, shard, number)?;
        number += 1;
    }
    Ok(rows)
}

/// The rows of the store of these 64 shards, each once. Want of memory is the one error.
pub fn rows_of(alloc: Global, shards: Vec<ReplayShard>) -> Result<Vec<Row>, AllocError>
    ensures { (store : List StoredRow) → length shards.items ≡ 64 → AreShardsOf store shards.items →
        ((r : StoredRow) → Among r store → channels r.part ≢ []) → IfOk result (λ v. IsPermutation v.items store) }
{
    gather(alloc, shards)
}
