// What a shard holds, and what a step makes of it.
ghost use Rattle.std.specs.Prelude.{◌≡◌, ◌<◌, ◌^◌, ◌-◌, ◌++◌, ◌∷◌, true, false, cond, flat_map, map as each, take, length, slice_index_or};
ghost use Rattle.calculus.specs.Steps.{is_one_of};
ghost use Rattle.event_log.specs.View.{step_of};
ghost use Rattle.racing_replays.specs.Replaying.{names};
ghost use Rattle.racing_replays.specs.Counted.{names_id};
ghost use Rattle.hub_scenes.specs.Spaces.{SeenRow, IsIn};
ghost use Rattle.replay_rows.specs.Rows.{counted_in, filed_rows, part_of, seen_row, settled, settled_part, stays_from, AreFiled, AreLow};

use crate::rows::{Rows, settle};
use crate::sharded::ShardedRow;
use calculus::Digest;
use event_log::LogStep;
use replay_space::Seen;

/// A shard: its number, the rows in it by their ids, and the built-in receivers in it.
#[derive(Drop)]
pub struct Kept {
    pub number: u32,
    pub rows: Rows,
    pub built: Vec<Seen<ShardedRow>>,
}

/// Whether an id is one of these.
pub fn is_among(id: &Digest, ids: &[Digest]) -> bool
    ensures { result ≡ is_one_of id.now.0 (each (λ (d : Digest). d.0) ids.now) }
{
    for other in ids {
        if id == other {
            return true;
        }
    }
    false
}

/// Whether a step names an id.
pub fn is_named(step: &LogStep, id: &Digest) -> bool
    ensures { result ≡ names_id id.now.0 (step_of step.now) }
{
    if id == &step.cont {
        return true;
    }
    is_among(id, step.taken.as_slice())
}

// Takes out the rows with these ids.
fn take_out(rows: &mut Rows, gone: &[Digest])
    requires { AreFiled rows.old.entries }
    ensures rows { filed_rows rows.new.entries ≡ flat_map (stays_from (each (λ (d : Digest). d.0) gone.now)) (filed_rows rows.old.entries) }
    ensures filed { AreFiled rows.new.entries }
{
    for id in gone {
        settle(rows, id, true);
    }
}

// Whether the id of the datum at this place of a step is its receiver's or that of a datum before it.
fn was_named(step: &LogStep, place: usize) -> bool
    requires { place < length step.now.taken.items }
    ensures { result ≡ is_one_of (slice_index_or step.now.taken.items place step.now.cont).0
        (step.now.cont.0 ∷ each (λ (d : Digest). d.0) (take place step.now.taken.items)) }
{
    let id = &step.taken[place];
    if id == &step.cont {
        return true;
    }
    is_among(id, &step.taken.as_slice()[..place])
}

// Counts one more done step at each row with this id, if it is wanted.
fn count_if(rows: &mut Rows, id: &Digest, wanted: bool)
    requires filed { AreFiled rows.old.entries }
    requires low { wanted ≡ true → (q : SeenRow) → IsIn q (filed_rows rows.old.entries) → id.now.0 ≡ q.row.id → q.done < 2 ^ 32 - 1 }
    ensures rows { filed_rows rows.new.entries ≡ cond wanted
        (flat_map (settled id.now.0 false) (filed_rows rows.old.entries)) (filed_rows rows.old.entries) }
    ensures filed { AreFiled rows.new.entries }
{
    if !wanted {
        return;
    }
    settle(rows, id, false);
}

// Counts one more done step at each row that a step names.
fn count_named(rows: &mut Rows, step: &LogStep)
    requires filed { AreFiled rows.old.entries }
    requires low { AreLow (step_of step.now) (filed_rows rows.old.entries) }
    ensures rows { filed_rows rows.new.entries ≡ each (counted_in (names (step_of step.now))) (filed_rows rows.old.entries) }
    ensures filed { AreFiled rows.new.entries }
{
    settle(rows, &step.cont, false);
    for i in 0..step.taken.len() {
        let wanted = !was_named(step, i);
        count_if(rows, &step.taken[i], wanted);
    }
}

// Counts one more done step at each of these receivers that a step names.
fn count_built(built: &mut Vec<Seen<ShardedRow>>, step: &LogStep)
    requires { AreLow (step_of step.now) (each seen_row built.old.items) }
    ensures { each seen_row built.new.items ≡ each (counted_in (names (step_of step.now))) (each seen_row built.old.items) }
{
    for i in 0..built.len() {
        count_one(&mut built[i], step);
    }
}

// Counts one more done step at a row, if a step names it.
fn count_one(seen: &mut Seen<ShardedRow>, step: &LogStep)
    requires { names_id seen.old.row.id (step_of step.now) ≡ true → seen.old.done < 2 ^ 32 - 1 }
    ensures { seen_row seen.new ≡ counted_in (names (step_of step.now)) (seen_row seen.old) }
{
    if !is_named(step, &seen.row.id()) {
        return;
    }
    seen.done += 1;
}

/// What a step makes of a shard, where the rows with these ids leave. It takes no memory.
pub fn settle_shard(kept: &mut Kept, step: &LogStep, gone: &[Digest])
    requires filed { AreFiled kept.old.rows.entries }
    requires low { AreLow (step_of step.now) (filed_rows kept.old.rows.entries ++ each seen_row kept.old.built.items) }
    ensures part { part_of kept.new ≡ settled_part (step_of step.now) (each (λ (d : Digest). d.0) gone.now) (part_of kept.old) }
    ensures filed { AreFiled kept.new.rows.entries }
{
    take_out(&mut kept.rows, gone);
    count_named(&mut kept.rows, step);
    count_built(&mut kept.built, step);
}
