// Whether one more done step can be counted at each row that a step names.
ghost use Rattle.std.specs.Prelude.{◌≡◌, map as each, option_map};
ghost use Rattle.std.specs.List.{list_any};
ghost use Rattle.event_log.specs.View.{step_of};
ghost use Rattle.replay_slots.specs.Hands.{all_shown, parts_of, shown_at, AreSlotsFiled, IsSlotFiled};
ghost use Rattle.replay_rows.specs.Rows.{filed_rows, has_full, is_full, part_of, seen_row, AreFiled};

use crate::slots::Slot;
use calculus::Digest;
use event_log::LogStep;
use replay_rows::rows::Rows;
use replay_rows::sharded::ShardedRow;
use replay_space::Seen;

// Whether a count is full at one of these rows with this id.
fn is_full_list(list: &[Seen<ShardedRow>], id: &Digest) -> bool
    ensures { result ≡ list_any (is_full id.now.0) (each seen_row list.now) }
{
    for seen in list {
        if &seen.row.id() == id && seen.done >= u32::MAX {
            return true;
        }
    }
    false
}

// The same of a map from ids.
fn is_full_map(rows: &Rows, id: &Digest) -> bool
    requires { AreFiled rows.now.entries }
    ensures { result ≡ list_any (is_full id.now.0) (filed_rows rows.now.entries) }
{
    let _size = rows.len();
    match rows.get(&id.0) {
        None => false,
        Some(list) => is_full_list(list.as_slice(), id),
    }
}

// The same of a shard, if it is there.
fn is_full_at(slot: &Slot, id: &Digest) -> bool
    requires { IsSlotFiled slot.now }
    ensures { result ≡ list_any (is_full id.now.0) (shown_at (option_map part_of slot.now)) }
{
    match slot {
        None => false,
        Some(kept) => {
            if is_full_map(&kept.rows, id) {
                return true;
            }
            is_full_list(kept.built.as_slice(), id)
        }
    }
}

// The same of all shards in hand.
fn is_full_in(slots: &[Slot], id: &Digest) -> bool
    requires { AreSlotsFiled slots.now }
    ensures { result ≡ list_any (is_full id.now.0) (all_shown (parts_of slots.now)) }
{
    match slots {
        [] => false,
        [first, others @ ..] => {
            if is_full_at(first, id) {
                return true;
            }
            is_full_in(others, id)
        }
    }
}

// The same of these ids.
fn are_full(slots: &[Slot], ids: &[Digest]) -> bool
    requires { AreSlotsFiled slots.now }
    ensures { result ≡ list_any (λ x. list_any (is_full x) (all_shown (parts_of slots.now))) (each (λ (d : Digest). d.0) ids.now) }
{
    for id in ids {
        if is_full_in(slots, id) {
            return true;
        }
    }
    false
}

/// Whether a count is full at a row in hand that a step names.
pub fn has_full_row(slots: &[Slot], step: &LogStep) -> bool
    requires { AreSlotsFiled slots.now }
    ensures { result ≡ has_full (step_of step.now) (all_shown (parts_of slots.now)) }
{
    if is_full_in(slots, &step.cont) {
        return true;
    }
    are_full(slots, step.taken.as_slice())
}
