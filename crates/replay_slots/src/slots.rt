// The shards in hand, in 64 places.
ghost use Rattle.std.specs.Prelude.{◌≡◌, ◌≢◌, ◌<◌, ℕ, List, true, ◌++◌, length, map as each, Some, None, IsSome, IfOk, OnOk, OnErr, cond, option_map, option_copied, slice_index_or};
ghost use Rattle.event_log.specs.View.{step_of};
ghost use Rattle.hub_scenes.specs.Spaces.{IndexTry, new_row};
ghost use Rattle.hub_scenes.specs.Entries.{arrives};
ghost use Rattle.events.specs.Shards.{stands_in};
ghost use Rattle.replay_rows.specs.Bits.{has_bit};
ghost use Rattle.replay_slots.specs.Hands.{all_shown, parts_of, shard_at, shown_at, AreSlotsFiled, GainsRow, GainsSeen, HasRoomAt, IsSlotFiled, TouchedBecome};
ghost use Rattle.replay_rows.specs.Rows.{arrived_seen, part_of, settled_part, AreLow};

use calculus::Digest;
use event_log::LogStep;
use replay_rows::bits::is_set;
use replay_rows::kept::{Kept, settle_shard};
use replay_rows::rows::{make_room, put};
use replay_rows::sharded::ShardedRow;
use replay_space::Seen;
use std::alloc::{AllocError, Global};

/// A place for a shard.
pub type Slot = Option<Kept>;

// Makes room for one more row with this id in a shard that is there, if it is wanted.
fn make_room_if(alloc: Global, slot: &mut Slot, id: &Digest, wanted: bool) -> Result<(), AllocError>
    ensures same { option_map part_of slot.new ≡ option_map part_of slot.old }
    ensures filed { IsSlotFiled slot.old → IsSlotFiled slot.new }
    ensures room { OnOk result (wanted ≡ true → IsSome slot.old → HasRoomAt id.now.0 slot.new) }
{
    if !wanted {
        return Ok(());
    }
    match slot {
        None => Ok(()),
        Some(kept) => make_room(alloc, &mut kept.rows, id),
    }
}

/// Makes room for one more row with this id in those of these shards that are there.
pub fn make_room_all(
    alloc: Global,
    slots: &mut Vec<Slot>,
    shards: u64,
    id: &Digest,
) -> Result<(), AllocError>
    requires { length slots.old.items ≡ 64 }
    ensures long { length slots.new.items ≡ 64 }
    ensures same { parts_of slots.new.items ≡ parts_of slots.old.items }
    ensures filed { AreSlotsFiled slots.old.items → AreSlotsFiled slots.new.items }
    ensures room { OnOk result ((k : ℕ) → k < 64 → has_bit shards k ≡ true →
        IsSome (slice_index_or slots.old.items k None) → HasRoomAt id.now.0 (slice_index_or slots.new.items k None)) }
{
    for number in 0..64u32 {
        let wanted = is_set(shards, number);
        make_room_if(alloc, &mut slots[number as usize], id, wanted)?;
    }
    Ok(())
}

// A copy of a row that arrives, if it is wanted.
fn copy_if(
    alloc: Global,
    row: &ShardedRow,
    from: Option<u32>,
    wanted: bool,
) -> Result<Option<Seen<ShardedRow>>, AllocError>
    ensures { IfOk result (λ o. o ≡ cond wanted (Some (arrived_seen row.now from)) None) }
{
    if !wanted {
        return Ok(None);
    }
    let row = row.copy(alloc)?;
    Ok(Some(Seen { row, from, done: 0 }))
}

/// Copies of a row that arrives, one for each of these shards.
pub fn make_copies(
    alloc: Global,
    row: &ShardedRow,
    from: Option<u32>,
    shards: u64,
) -> Result<Vec<Option<Seen<ShardedRow>>>, AllocError>
    ensures long { IfOk result (λ v. length v.items ≡ 64) }
    ensures are { IfOk result (λ v. (k : ℕ) → k < 64 → slice_index_or v.items k None ≡
        cond (has_bit shards k) (Some (arrived_seen row.now from)) None) }
{
    let mut copies = Vec::new(alloc);
    for number in 0..64u32 {
        copies.push(copy_if(alloc, row, from, is_set(shards, number))?)?;
    }
    Ok(copies)
}

// Puts a copy of a row into a shard that is there and has room for it.
fn put_at(slot: &mut Slot, copy: Option<Seen<ShardedRow>>)
    requires { (s : Seen ShardedRow) → copy ≡ Some s → HasRoomAt s.row.id slot.old }
    ensures { GainsRow copy slot.old slot.new }
{
    if let Some(seen) = copy {
        if let Some(kept) = slot {
            put(&mut kept.rows, seen);
        }
    }
}

// A row arrives in a shard that is there. Where memory is wanted, the shard shows what it did.
fn arrive_one(
    alloc: Global,
    slot: &mut Slot,
    row: ShardedRow,
    from: Option<u32>,
) -> Result<(), AllocError>
    requires { IsSome slot.old }
    ensures back { OnErr result (option_map part_of slot.new ≡ option_map part_of slot.old) }
    ensures filed { IsSlotFiled slot.old → IsSlotFiled slot.new }
    ensures arrived { OnOk result (GainsSeen (arrived_seen row from) slot.old slot.new) }
{
    make_room_if(alloc, slot, &row.id(), true)?;
    put_at(slot, Some(Seen { row, from, done: 0 }));
    Ok(())
}

/// A row arrives in the shard of this number, which is there. Where memory is wanted, all shards show what they did.
pub fn arrive_at(
    alloc: Global,
    slots: &mut Vec<Slot>,
    row: ShardedRow,
    from: Option<u32>,
    number: u32,
) -> Result<(), AllocError>
    requires low { (length slots.old.items ≡ 64) × (number < 64) }
    requires there { IsSome (slice_index_or slots.old.items number None) }
    ensures long { length slots.new.items ≡ 64 }
    ensures back { OnErr result (parts_of slots.new.items ≡ parts_of slots.old.items) }
    ensures filed { AreSlotsFiled slots.old.items → AreSlotsFiled slots.new.items }
    ensures arrived { OnOk result (GainsSeen (arrived_seen row from) (slice_index_or slots.old.items number None)
        (slice_index_or slots.new.items number None)) }
    ensures others { (k : ℕ) → k ≢ number → slice_index_or slots.new.items k None ≡ slice_index_or slots.old.items k None }
{
    arrive_one(alloc, &mut slots[number as usize], row, from)
}

/// Puts copies of a row into the shards at their places, which have room for them.
pub fn put_all(slots: &mut Vec<Slot>, copies: Vec<Option<Seen<ShardedRow>>>)
    requires long { length slots.old.items ≡ 64 }
    requires many { length copies.items ≡ 64 }
    requires room { (k : ℕ) (s : Seen ShardedRow) → slice_index_or copies.items k None ≡ Some s →
        HasRoomAt s.row.id (slice_index_or slots.old.items k None) }
    ensures long { length slots.new.items ≡ 64 }
    ensures put { (k : ℕ) → GainsRow (slice_index_or copies.items k None) (slice_index_or slots.old.items k None)
        (slice_index_or slots.new.items k None) }
{
    let mut rest = copies;
    for k in 0..64usize {
        let copy = rest[k].take();
        put_at(&mut slots[k], copy);
    }
}

/// A row arrives in each of these shards, which are there. Where memory is wanted, all shards show what they did.
pub fn arrive_in(
    alloc: Global,
    slots: &mut Vec<Slot>,
    row: &ShardedRow,
    from: Option<u32>,
    shards: u64,
) -> Result<(), AllocError>
    requires shards { (k : ℕ) → has_bit shards k ≡ stands_in k row.now }
    requires long { length slots.old.items ≡ 64 }
    requires held { (k : ℕ) → has_bit shards k ≡ true → IsSome (shard_at (parts_of slots.old.items) k) }
    ensures long { length slots.new.items ≡ 64 }
    ensures back { OnErr result (parts_of slots.new.items ≡ parts_of slots.old.items) }
    ensures filed { AreSlotsFiled slots.old.items → AreSlotsFiled slots.new.items }
    ensures absent { (k : ℕ) → shard_at (parts_of slots.old.items) k ≡ None → shard_at (parts_of slots.new.items) k ≡ None }
    ensures arrived { OnOk result ((next : List IndexTry) →
        TouchedBecome (has_bit shards) (arrives (new_row from row.now) next) (parts_of slots.old.items)
        (parts_of slots.new.items)) }
{
    let copies = make_copies(alloc, row, from, shards)?;
    make_room_all(alloc, slots, shards, &row.id())?;
    put_all(slots, copies);
    Ok(())
}

// What a step makes of a shard that is there, where the rows with these ids leave.
fn settle_at(slot: &mut Slot, step: &LogStep, gone: &[Digest])
    requires filed { IsSlotFiled slot.old }
    requires low { AreLow (step_of step.now) (shown_at (option_map part_of slot.old)) }
    ensures part { option_map part_of slot.new ≡ option_map
        (settled_part (step_of step.now) (each (λ (d : Digest). d.0) gone.now)) (option_map part_of slot.old) }
    ensures filed { IsSlotFiled slot.new }
{
    if let Some(kept) = slot {
        settle_shard(kept, step, gone);
    }
}

/// What a step makes of the shards that are there, where the rows with these ids leave.
pub fn settle_all(slots: &mut Vec<Slot>, step: &LogStep, gone: &[Digest])
    requires long { length slots.old.items ≡ 64 }
    requires filed { AreSlotsFiled slots.old.items }
    requires low { AreLow (step_of step.now) (all_shown (parts_of slots.old.items)) }
    ensures long { length slots.new.items ≡ 64 }
    ensures filed { AreSlotsFiled slots.new.items }
    ensures parts { parts_of slots.new.items ≡ each (option_map
        (settled_part (step_of step.now) (each (λ (d : Digest). d.0) gone.now))) (parts_of slots.old.items) }
{
    for k in 0..64usize {
        settle_at(&mut slots[k], step, gone);
    }
}
