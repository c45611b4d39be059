// Rows in hand, found by their ids.
ghost use Rattle.std.specs.Prelude.{◌≡◌, map as each, option_map, option_copied};
ghost use Rattle.replay_slots.specs.Hands.{all_shown, parts_of, shown_at, AreSlotsFiled, IsSlotFiled};
ghost use Rattle.replay_rows.specs.Rows.{find_seen, part_of, seen_row};

use crate::slots::Slot;
use calculus::Digest;
use replay_rows::rows::find;
use replay_rows::sharded::ShardedRow;
use replay_space::Seen;

// The first of these receivers with this id.
fn find_built<'a>(built: &'a [Seen<ShardedRow>], id: &Digest) -> Option<&'a Seen<ShardedRow>>
    ensures { option_map seen_row (option_copied result) ≡ find_seen id.now.0 (each seen_row built.now) }
{
    match built {
        [] => None,
        [first, others @ ..] => {
            if &first.row.id() == id {
                return Some(first);
            }
            find_built(others, id)
        }
    }
}

// The first row of a shard with this id, if the shard is there.
fn find_at<'a>(slot: &'a Slot, id: &Digest) -> Option<&'a Seen<ShardedRow>>
    requires { IsSlotFiled slot.now }
    ensures { option_map seen_row (option_copied result) ≡ find_seen id.now.0 (shown_at (option_map part_of slot.now)) }
{
    match slot {
        None => None,
        Some(kept) => match find(&kept.rows, id) {
            Some(seen) => Some(seen),
            None => find_built(kept.built.as_slice(), id),
        },
    }
}

/// The first row in hand with this id.
pub fn find_in<'a>(slots: &'a [Slot], id: &Digest) -> Option<&'a Seen<ShardedRow>>
    requires { AreSlotsFiled slots.now }
    ensures { option_map seen_row (option_copied result) ≡ find_seen id.now.0 (all_shown (parts_of slots.now)) }
{
    match slots {
        [] => None,
        [first, others @ ..] => match find_at(first, id) {
            Some(seen) => Some(seen),
            None => find_in(others, id),
        },
    }
}
