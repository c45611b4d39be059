// Whether rows in hand fit a step.
ghost use Rattle.std.specs.Prelude.{◌≡◌, ◌<◌, ◌^◌, ◌-◌, ◌∷◌, ◌++◌, List, ◌||◌, ◌&&◌, eqb, not, length, count_by, IfOk, MatchOption};
ghost use Rattle.calculus.specs.Log.{Step};
ghost use Rattle.calculus.specs.Steps.{differ, same_meeting};
ghost use Rattle.event_log.specs.View.{step_of, steps_of};
ghost use Rattle.hub_scenes.specs.Spaces.{SeenRow, bare};
ghost use Rattle.replay_space.specs.Rigs.{IsRigOf};
ghost use Rattle.replay_slots.specs.Hands.{all_shown, parts_of, AreSlotsFiled};
ghost use Rattle.replay_shards.specs.Ready.{IsReady, Meet, MeetNot};
ghost use Rattle.replay_rows.specs.Rows.{has_full};
ghost use Rattle.replay_shards.specs.Taken.{bytes_of, AreFound, FitsNothing};

use crate::attempt::Attempt;
use crate::early::but_early;
use crate::next::all_next;
use crate::ready::Ready;
use crate::taking::{lend_row, take_rows};
use calculus::Digest;
use event_log::LogStep;
use replay_rows::kept::is_among;
use replay_slots::has_full_row;
use row_meeting::meet_rows;
use space_row::Row;
use std::alloc::{AllocError, Global};

// Whether these ids differ from one another.
fn are_different(ids: &[Digest]) -> bool
    ensures { result ≡ differ (bytes_of ids.now) }
{
    for i in 0..ids.len() {
        if is_among(&ids[i], &ids[i + 1..]) {
            return false;
        }
    }
    true
}

// Whether a step with this repeat number may be made of rows that meet, where none or some leave.
fn may_be_made(repeat: u32, lasting: bool) -> bool
    ensures { result ≡ eqb repeat 0 || lasting }
{
    repeat == 0 || lasting
}

// Whether no count is full at a row that a step names, its data have different ids, and its repeat number is how often
// it stands before itself.
fn may_fit(attempt: &Attempt, wanted: &LogStep) -> bool
    requires filed { AreSlotsFiled attempt.now.slots.now }
    requires step { (ss : List Step) × (IsRigOf ss attempt.now.rig.now × attempt.now.step < length ss) }
    ensures { (before : List Step) (s : Step) (after : List Step) → IsRigOf (before ++ s ∷ after) attempt.now.rig.now →
        length before ≡ attempt.now.step → s ≡ step_of wanted.now →
        result ≡ not (has_full s (all_shown (parts_of attempt.now.slots.now))) &&
        (differ s.data_ids && eqb s.repeat (count_by (same_meeting s) before)) }
{
    if has_full_row(attempt.slots, wanted) {
        return false;
    }
    if !are_different(wanted.taken.as_slice()) {
        return false;
    }
    attempt.rig.is_repeat(attempt.step, wanted.repeat)
}

// What a receiver and data come to, which are the first rows in hand with the ids that a step names.
fn meet_taken(
    alloc: Global,
    attempt: &Attempt,
    wanted: &LogStep,
    receiver: &Row,
    sends: &[Row],
) -> Result<Option<Ready>, AllocError>
    requires { AreSlotsFiled attempt.now.slots.now }
    ensures { (ss : List Step) (r : SeenRow) (ds : List SeenRow) → IsRigOf ss attempt.now.rig.now →
        ss ≡ steps_of attempt.now.steps.now → AreFound (all_shown (parts_of attempt.now.slots.now))
        (wanted.now.cont.0 ∷ bytes_of wanted.now.taken.items) (r ∷ ds) →
        r.row ≡ receiver.now → bare ds ≡ sends.now → IfOk result
        (λ o. MatchOption o (MeetNot (r ∷ ds) wanted.now.repeat)
        (Meet ss (all_shown (parts_of attempt.now.slots.now)) wanted.now.repeat r ds)) }
{
    let Some(found) = meet_rows(alloc, receiver, sends)? else {
        return Ok(None);
    };
    if !may_be_made(wanted.repeat, found.lasting) {
        return Ok(None);
    }
    let all = all_next(
        alloc,
        attempt,
        found.gone.as_slice(),
        &wanted.cont,
        wanted.taken.as_slice(),
    )?;
    let next = but_early(attempt.slots, attempt.steps, &wanted.cont, all);
    Ok(Some(Ready { found, next }))
}

/// Rows in hand that fit a step, and None exactly where none do, if ids tell them.
pub(crate) fn fit(
    alloc: Global,
    attempt: &Attempt,
    wanted: &LogStep,
) -> Result<Option<Ready>, AllocError>
    requires filed { AreSlotsFiled attempt.now.slots.now }
    requires step { (ss : List Step) × (IsRigOf ss attempt.now.rig.now × attempt.now.step < length ss) }
    ensures { (before : List Step) (s : Step) (after : List Step) → IsRigOf (before ++ s ∷ after) attempt.now.rig.now →
        before ++ s ∷ after ≡ steps_of attempt.now.steps.now → length (before ++ s ∷ after) < 2 ^ 32 - 1 →
        length before ≡ attempt.now.step → s ≡ step_of wanted.now → IfOk result (λ o. MatchOption o
        (FitsNothing (before ++ s ∷ after) (all_shown (parts_of attempt.now.slots.now)) before s attempt.now.step)
        (IsReady (before ++ s ∷ after) (all_shown (parts_of attempt.now.slots.now)) before s attempt.now.step)) }
{
    let Some(receiver) = lend_row(attempt.slots, attempt.rig, attempt.step, 0, &wanted.cont) else {
        return Ok(None);
    };
    let Some(sends) = take_rows(
        alloc,
        attempt.slots,
        attempt.rig,
        attempt.step,
        wanted.taken.as_slice(),
    )?
    else {
        return Ok(None);
    };
    if !may_fit(attempt, wanted) {
        return Ok(None);
    }
    meet_taken(alloc, attempt, wanted, receiver, sends.rows())
}
