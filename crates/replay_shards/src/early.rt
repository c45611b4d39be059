// Tries that would come too early: a receiver stays, and one of the data of its next step is not in hand. Such a datum brings
// a try with it when it arrives.
ghost use Rattle.std.specs.Prelude.{◌≡◌, true};
ghost use Rattle.std.specs.Str.{bytes_eq};
ghost use Rattle.event_log.specs.View.{steps_of};
ghost use Rattle.replay_slots.specs.Hands.{all_shown, parts_of, AreSlotsFiled};
ghost use Rattle.replay_shards.specs.Ready.{AreBut, LacksAt, LacksOne, StartsEarly};
ghost use Rattle.replay_shards.specs.Taken.{bytes_of};

use crate::ready::Try;
use calculus::Digest;
use event_log::LogStep;
use replay_slots::{Slot, find_in};

// Whether no row in hand has one of these ids.
fn lacks_one(slots: &[Slot], ids: &[Digest]) -> bool
    requires { AreSlotsFiled slots.now }
    ensures { result ≡ true → LacksOne (all_shown (parts_of slots.now)) (bytes_of ids.now) }
{
    for id in ids {
        match find_in(slots, id) {
            None => return true,
            Some(_) => {}
        }
    }
    false
}

// Whether a step has the receiver with this id.
fn is_receiver(step: &LogStep, id: &Digest) -> bool
    ensures { result ≡ bytes_eq id.now.0 step.now.cont.0 }
{
    id == &step.cont
}

// Whether the step with this index has the receiver with this id, and no row in hand has the id of one of its data.
fn is_early(slots: &[Slot], steps: &[LogStep], index: u32, receiver: &Digest) -> bool
    requires { AreSlotsFiled slots.now }
    ensures { result ≡ true → LacksAt (steps_of steps.now) (all_shown (parts_of slots.now)) receiver.now.0 index }
{
    match steps.get(index as usize) {
        None => false,
        Some(next) => {
            if !is_receiver(next, receiver) {
                return false;
            }
            lacks_one(slots, next.taken.as_slice())
        }
    }
}

// Whether the first of these tries is so.
fn starts_early(slots: &[Slot], steps: &[LogStep], receiver: &Digest, tries: &[Try]) -> bool
    requires { AreSlotsFiled slots.now }
    ensures { result ≡ true → StartsEarly (steps_of steps.now) (all_shown (parts_of slots.now)) receiver.now.0 tries.now }
{
    match tries.get(0) {
        None => false,
        Some(first) => is_early(slots, steps, first.step, receiver),
    }
}

/// These tries but the first, where its step has the receiver with this id and no row in hand has the id of one of its data.
pub(crate) fn but_early(
    slots: &[Slot],
    steps: &[LogStep],
    receiver: &Digest,
    next: Vec<Try>,
) -> Vec<Try>
    requires { AreSlotsFiled slots.now }
    ensures { AreBut (steps_of steps.now) (all_shown (parts_of slots.now)) receiver.now.0 next.items result.items }
{
    if !starts_early(slots, steps, receiver, next.as_slice()) {
        return next;
    }
    let mut rest = next;
    rest.remove(0);
    rest
}
