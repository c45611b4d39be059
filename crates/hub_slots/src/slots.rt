//! The slots of a hub, as it opens and as it ends.
ghost use Rattle.std.specs.Prelude.{◌≡◌, ℕ, ◌-◌, ◌<◌, ◌≤◌, ◌++◌, [], Some, IfOk, List, length, map, slice_get, vec_capacity};
ghost use Rattle.std.specs.Vec.Iter.{into_iter_items};
ghost use Rattle.std.specs.Mem.Slots.{slots_items, slots_len, slots_filled, IsFull};
ghost use Rattle.hub_rule.specs.Counts.{all_of};
ghost use Rattle.hub_rule.specs.Works.{Laid, LiesOn, LiesAt, DesksFit, FilledFrom};

use hub_rule::{Slot, move_all};
use std::alloc::{AllocError, Global};
use std::vec::IntoIter;

/// The slots of these shards, and of 32 desks. As many desks as seats share the works.
pub fn slots_of<X: Drop, W: Drop>(
    alloc: Global,
    shards: Vec<X>,
    work: Vec<W>,
    seats: u32,
) -> Result<Vec<Slot<X, W>>, AllocError>
    requires { 1 ≤ seats }
    ensures { IfOk result (λ v. Laid 32 shards.items work.items v.items) }
{
    let share = work.len().div_ceil(seats as usize);
    let mut slots = all_shards(alloc, shards)?;
    let mut works = work.into_iter();
    for _ in 0..31u32 {
        slots.push(Slot::Desk(take_some(alloc, &mut works, share)?))?;
    }
    slots.push(Slot::Desk(take_some(alloc, &mut works, usize::MAX)?))?;
    Ok(slots)
}

// Moves so many things out, or all where there are no more.
fn take_some<T: Drop>(
    alloc: Global,
    things: &mut IntoIter<T>,
    count: usize,
) -> Result<Vec<T>, AllocError>
    ensures { IfOk result (λ v. (v.items ++ into_iter_items things.new ≡ into_iter_items things.old)
        × (length (into_iter_items things.new) ≤ length (into_iter_items things.old) - count)) }
{
    let mut some = Vec::with_capacity(alloc, count.min(things.len()))?;
    for _ in 0..count {
        let Some(thing) = things.next() else {
            return Ok(some);
        };
        some.push(thing)?;
    }
    Ok(some)
}

fn all_shards<X: Drop, W: Drop>(
    alloc: Global,
    shards: Vec<X>,
) -> Result<Vec<Slot<X, W>>, AllocError>
    ensures { IfOk result (λ v. v.items ≡ map (λ x. Slot.Shard (Some x)) shards.items) }
{
    shards
        .into_iter()
        .map(|x| Slot::Shard(Some(x)))
        .collect(alloc)
}

fn shard_of<X: Drop, W: Drop>(slot: Slot<X, W>) -> X
    requires { (x : X) × (slot ≡ Slot.Shard (Some x)) }
    ensures { slot ≡ Slot.Shard (Some result) }
{
    let Slot::Shard(Some(shard)) = slot else {
        unreachable!()
    };
    shard
}

fn works_of<X: Drop, W: Drop>(slot: Slot<X, W>) -> Vec<W>
    requires { (works : _) × (slot ≡ Slot.Desk works) }
    ensures { slot ≡ Slot.Desk result }
{
    let Slot::Desk(works) = slot else {
        unreachable!()
    };
    works
}

/// Takes the shards out of their slots.
pub fn take_shards<X: Drop, W: Drop>(
    mut closed: atomic_table::Closed<Slot<X, W>, Global>,
    mut out: Vec<X>,
) -> (Vec<X>, atomic_table::Closed<Slot<X, W>, Global>)
    requires slots { (slots_len closed.slots ≡ 96) × IsFull closed.slots }
    requires home { (k : ℕ) → k < 64 → (x : X) × LiesAt (slots_items closed.slots) k x }
    requires room { (out.items ≡ []) × (64 ≤ vec_capacity out) }
    ensures long { length result.0.items ≡ 64 }
    ensures items { (k : ℕ) (x : X) → slice_get result.0.items k ≡ Some x → LiesAt (slots_items closed.slots) k x }
    ensures same { slots_items result.1.slots ≡ slots_items closed.slots }
    ensures left { (slots_len result.1.slots ≡ 96) × FilledFrom 64 96 (slots_filled result.1.slots) }
{
    for number in 0..64usize {
        out.push_reserved(shard_of(closed.take(number)));
    }
    (out, closed)
}

/// Takes the works out of the slots of the desks.
pub fn take_left<X: Drop, W: Drop>(
    mut closed: atomic_table::Closed<Slot<X, W>, Global>,
    mut left: Vec<W>,
) -> Vec<W>
    requires slots { (slots_len closed.slots ≡ 96) × FilledFrom 64 96 (slots_filled closed.slots) }
    requires desks { DesksFit (slots_items closed.slots) (vec_capacity left) }
    requires room { left.items ≡ [] }
    ensures { (lists : List (List W)) → length lists ≡ 32 → LiesOn (slots_items closed.slots) lists → result.items ≡ all_of (λ l. l) lists }
{
    for desk in 64..96usize {
        move_all(works_of(closed.take(desk)), &mut left);
    }
    closed.free();
    left
}
