// The rows that a step names, where it is the step's turn at each.
ghost use Rattle.std.specs.Prelude.{◌≡◌, ◌∷◌, [], List, Some, IfOk, IfSome, MatchOption, option_copied, slice_get};
ghost use Rattle.std.specs.Bool.{Decides};
ghost use Rattle.calculus.specs.Log.{Step};
ghost use Rattle.racing_replays.specs.Counted.{uses};
ghost use Rattle.hub_scenes.specs.Showing.{IsLower};
ghost use Rattle.replay_space.specs.Rigs.{IsRigOf};
ghost use Rattle.replay_slots.specs.Hands.{all_shown, parts_of, AreSlotsFiled};
ghost use Rattle.replay_shards.specs.Taken.{bytes_of, taken_rows, AreTaken, IsNotTaken, IsTaken, IsTakenAlone, OneIsNotTaken};

use calculus::Digest;
use replay_rows::sharded::ShardedRow;
use replay_slots::{Slot, find_in};
use replay_space::{Rig, Seen};
use space_row::Row;
use std::alloc::{AllocError, Global};
use std::slice::from_ref;

// Whether a row stands from the start or was offered by a step below this one.
fn is_lower(from: Option<u32>, step: u32) -> bool
    ensures { Decides result (IsLower from step) }
{
    match from {
        None => true,
        Some(index) => index < step,
    }
}

// Whether a step is the next use of a row, which was not offered by this step or a later one. The step names the row at this
// place.
fn is_turn(rig: &Rig, seen: &Seen<ShardedRow>, step: u32, place: usize) -> bool
    ensures { (ss : List Step) → IsRigOf ss rig.now → Decides result
        ((slice_get (uses seen.now.row.id 0 ss) seen.now.done ≡ Some step) × IsLower seen.now.from step) }
{
    if !is_lower(seen.from, step) {
        return false;
    }
    match rig.next_use_at(&seen.row.id(), step, place, seen.done as usize) {
        Some(next) => next == step,
        None => false,
    }
}

/// The first row in hand with this id, which a step names at this place, if it is the step's turn at it.
pub(crate) fn lend_row<'a>(
    slots: &'a [Slot],
    rig: &Rig,
    step: u32,
    place: usize,
    id: &Digest,
) -> Option<&'a Row>
    requires { AreSlotsFiled slots.now }
    ensures { (ss : List Step) → IsRigOf ss rig.now → MatchOption (option_copied result)
        (IsNotTaken ss (all_shown (parts_of slots.now)) step id.now.0)
        (IsTaken ss (all_shown (parts_of slots.now)) step id.now.0) }
{
    match find_in(slots, id) {
        None => None,
        Some(seen) => {
            if !is_turn(rig, seen, step, place) {
                return None;
            }
            Some(seen.row.row())
        }
    }
}

// A copy of it.
fn take_row(
    alloc: Global,
    slots: &[Slot],
    rig: &Rig,
    step: u32,
    place: usize,
    id: &Digest,
) -> Result<Option<Row>, AllocError>
    requires { AreSlotsFiled slots.now }
    ensures { (ss : List Step) → IsRigOf ss rig.now → IfOk result
        (λ o. MatchOption o (IsNotTaken ss (all_shown (parts_of slots.now)) step id.now.0)
        (IsTaken ss (all_shown (parts_of slots.now)) step id.now.0)) }
{
    match lend_row(slots, rig, step, place, id) {
        None => Ok(None),
        Some(row) => Ok(Some(row.copy(alloc)?)),
    }
}

/// Rows that a step names behind its receiver's: one that is lent, or copies of others.
#[derive(Drop)]
pub(crate) struct TakenRows<'a> {
    pub one: Option<&'a Row>,
    pub copies: Vec<Row>,
}

impl<'a> TakenRows<'a> {
    /// The rows.
    pub(crate) fn rows(&self) -> &[Row]
        ensures { result.now ≡ taken_rows self.now }
    {
        match self.one {
            Some(row) => from_ref(row),
            None => self.copies.as_slice(),
        }
    }
}

// The first row in hand with this id, which a step names as its one datum, if it is the step's turn at it.
fn take_one<'a>(
    alloc: Global,
    slots: &'a [Slot],
    rig: &Rig,
    step: u32,
    id: &Digest,
) -> Option<TakenRows<'a>>
    requires { AreSlotsFiled slots.now }
    ensures { (ss : List Step) → IsRigOf ss rig.now → MatchOption result
        (IsNotTaken ss (all_shown (parts_of slots.now)) step id.now.0)
        (λ t. IsTakenAlone ss (all_shown (parts_of slots.now)) step id.now.0 (taken_rows t)) }
{
    let Some(row) = lend_row(slots, rig, step, 1, id) else {
        return None;
    };
    Some(TakenRows {
        one: Some(row),
        copies: Vec::new(alloc),
    })
}

// Copies of the first rows in hand with these ids, which a step names behind its receiver's, if it is the step's turn at each.
fn copy_rows(
    alloc: Global,
    slots: &[Slot],
    rig: &Rig,
    step: u32,
    ids: &[Digest],
) -> Result<Option<Vec<Row>>, AllocError>
    requires { AreSlotsFiled slots.now }
    ensures { (ss : List Step) → IsRigOf ss rig.now → IfOk result
        (λ o. MatchOption o (OneIsNotTaken ss (all_shown (parts_of slots.now)) step (bytes_of ids.now))
        (λ v. AreTaken ss (all_shown (parts_of slots.now)) step (bytes_of ids.now) v.items)) }
{
    let mut rows = Vec::new(alloc);
    for id in ids {
        let place = rows.len().saturating_add(1);
        match take_row(alloc, slots, rig, step, place, id)? {
            None => return Ok(None),
            Some(row) => rows.push(row)?,
        }
    }
    Ok(Some(rows))
}

// The same, as rows that are taken.
fn take_copies<'a>(
    alloc: Global,
    slots: &'a [Slot],
    rig: &Rig,
    step: u32,
    ids: &[Digest],
) -> Result<Option<TakenRows<'a>>, AllocError>
    requires { AreSlotsFiled slots.now }
    ensures { (ss : List Step) → IsRigOf ss rig.now → IfOk result
        (λ o. MatchOption o (OneIsNotTaken ss (all_shown (parts_of slots.now)) step (bytes_of ids.now))
        (λ t. AreTaken ss (all_shown (parts_of slots.now)) step (bytes_of ids.now) (taken_rows t))) }
{
    match copy_rows(alloc, slots, rig, step, ids)? {
        None => Ok(None),
        Some(copies) => Ok(Some(TakenRows { one: None, copies })),
    }
}

// The one id of these, if there is one alone.
fn lone(ids: &[Digest]) -> Option<&Digest>
    ensures { IfSome result (λ d. ids.now ≡ d.now ∷ []) }
{
    let count = ids.len();
    if count != 1 {
        return None;
    }
    match ids.get(0) {
        None => None,
        Some(id) => Some(id),
    }
}

/// The first rows in hand with these ids, which a step names behind its receiver's, if it is the step's turn at each. One alone is
/// lent, and more are copied.
pub(crate) fn take_rows<'a>(
    alloc: Global,
    slots: &'a [Slot],
    rig: &Rig,
    step: u32,
    ids: &[Digest],
) -> Result<Option<TakenRows<'a>>, AllocError>
    requires { AreSlotsFiled slots.now }
    ensures { (ss : List Step) → IsRigOf ss rig.now → IfOk result
        (λ o. MatchOption o (OneIsNotTaken ss (all_shown (parts_of slots.now)) step (bytes_of ids.now))
        (λ t. AreTaken ss (all_shown (parts_of slots.now)) step (bytes_of ids.now) (taken_rows t))) }
{
    match lone(ids) {
        Some(id) => Ok(take_one(alloc, slots, rig, step, id)),
        None => take_copies(alloc, slots, rig, step, ids),
    }
}
