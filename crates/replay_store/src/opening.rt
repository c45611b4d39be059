//! Rows that are put into shards.
ghost use Rattle.std.specs.Prelude.{◌≡◌, ◌<◌, ◌∷◌, ◌++◌, [], ℕ, List, Some, All, length, slice_get, IfOk, OnOk, IsSome};
ghost use Rattle.calculus.specs.Rows.{Row as StoredRow};
ghost use Rattle.calculus.specs.Storing.{IsStorable};
ghost use Rattle.hub_scenes.specs.Spaces.{Part};
ghost use Rattle.replay_slots.specs.Hands.{shard_at};
ghost use Rattle.replay_store.specs.Stores.{AreAll, AreOpened, AreOpenedShards};

use replay_shards::{ReplayHeld, ReplayShard, ShardedRow};
use space_row::Row;
use std::alloc::{AllocError, Global};

// The 64 shards of no rows, in hand. Want of memory is the one error.
fn empty_hand(alloc: Global) -> Result<ReplayHeld, AllocError>
    ensures { IfOk result (AreOpened []) }
{
    let mut held = ReplayHeld::new(alloc)?;
    for number in 0..64u32 {
        held.add(number, ReplayShard::new(alloc, number)?);
    }
    Ok(held)
}

// One more row comes to each shard that it stands in. Want of memory is the one error.
fn bring_in(alloc: Global, held: &mut ReplayHeld, row: &Row) -> Result<(), AllocError>
    requires all { AreAll held.old }
    ensures storable { IsStorable row.now }
    ensures opened { (rows : List StoredRow) → AreOpened rows held.old → OnOk result (AreOpened (rows ++ row.now ∷ []) held.new) }
{
    let _operation = row.op();
    let row = ShardedRow::from_row(alloc, row.copy(alloc)?)?;
    let shards = row.shards();
    held.arrive(alloc, row, None, shards)
}

// The shards in hand, in the order of their numbers. Want of memory is the one error.
fn take_shards(alloc: Global, hand: ReplayHeld) -> Result<Vec<ReplayShard>, AllocError>
    requires all { AreAll hand }
    ensures count { IfOk result (λ v. length v.items ≡ 64) }
    ensures each { IfOk result (λ v. (k : ℕ) (x : Part) → slice_get v.items k ≡ Some x → shard_at hand k ≡ Some x) }
{
    let mut held = hand;
    let mut shards = Vec::new(alloc);
    for number in 0..64u32 {
        let Some(shard) = held.remove(number) else {
            unreachable!()
        };
        shards.push(shard)?;
    }
    Ok(shards)
}

/// The 64 shards of a checkpoint's rows before the first entry of a replay, in the order of their numbers. Want of memory is the
/// one error.
pub fn open_shards(alloc: Global, rows: &[Row]) -> Result<Vec<ReplayShard>, AllocError>
    ensures count { IfOk result (λ v. length v.items ≡ 64) }
    ensures opened { IfOk result (λ v. AreOpenedShards rows.now v.items) }
    ensures storable { IfOk result (λ _. All IsStorable rows.now) }
{
    let mut held = empty_hand(alloc)?;
    for row in rows {
        bring_in(alloc, &mut held, row)?;
    }
    take_shards(alloc, held)
}
