// The tries that follow an arrival or a done step.
ghost use Rattle.std.specs.Prelude.{◌≡◌, [], ◌∷◌, ℕ, List, Some, slice_get, IfOk, OnOk};
ghost use Rattle.calculus.specs.Log.{Step};
ghost use Rattle.racing_replays.specs.Counted.{uses};
ghost use Rattle.hub_scenes.specs.Spaces.{SeenRow};
ghost use Rattle.hub_scenes.specs.Showing.{IsFirstUse};
ghost use Rattle.replay_space.specs.Rigs.{IsRigOf};
ghost use Rattle.replay_slots.specs.Hands.{all_shown, parts_of, AreSlotsFiled};
ghost use Rattle.replay_shards.specs.Ready.{if_any, index_tries, AreNext, Follow, IsUseTry};
ghost use Rattle.replay_rows.specs.Rows.{find_seen};
ghost use Rattle.replay_shards.specs.Taken.{bytes_of, AreFound};

use crate::attempt::Attempt;
use crate::ready::Try;
use calculus::Digest;
use replay_rows::kept::is_among;
use replay_rows::sharded::ShardedRow;
use replay_slots::find_in;
use replay_space::Rig;
use std::alloc::{AllocError, Global};

// The try of a use of a row, if there is one.
fn use_try(row: &ShardedRow, next: Option<u32>) -> Option<Try>
    ensures { (ss : List Step) (n : ℕ) → next ≡ slice_get (uses row.now.id 0 ss) n → IsUseTry ss row.now n (if_any result) }
{
    match next {
        None => None,
        Some(step) => Some(Try {
            step,
            channel: row.first_channel(),
        }),
    }
}

// The first use of an id, whose row was offered by this step. It is looked for in the step behind that one first.
fn first_use(rig: &Rig, id: &Digest, from: Option<u32>) -> Option<u32>
    ensures { (ss : List Step) → IsRigOf ss rig.now → result ≡ slice_get (uses id.now.0 0 ss) 0 }
{
    match from {
        None => rig.next_use(id, 0),
        Some(step) => rig.next_use_near(id, step.saturating_add(1), 0),
    }
}

/// The try that follows where a row arrives: of its first use in the log. `from` is the step that offered it, and changes
/// nothing in the answer: where the step behind that one uses the row, nothing is looked up. Want of memory is the one error.
pub fn first_tries(
    alloc: Global,
    rig: &Rig,
    row: &ShardedRow,
    from: Option<u32>,
) -> Result<Vec<Try>, AllocError>
    ensures { (ss : List Step) → IsRigOf ss rig.now → IfOk result (λ v. IsFirstUse ss row.now (index_tries v.items)) }
{
    let mut tries = Vec::new(alloc);
    match use_try(row, first_use(rig, &row.id(), from)) {
        None => Ok(tries),
        Some(tried) => {
            tries.push(tried)?;
            Ok(tries)
        }
    }
}

// Adds the try that follows for the first row in hand with this id, unless it leaves. The step names it at this place.
fn add_next(
    attempt: &Attempt,
    place: usize,
    gone: &[Digest],
    id: &Digest,
    next: &mut Vec<Try>,
) -> Result<(), AllocError>
    requires { AreSlotsFiled attempt.now.slots.now }
    ensures { (ss : List Step) (q : SeenRow) → IsRigOf ss attempt.now.rig.now →
        find_seen id.now.0 (all_shown (parts_of attempt.now.slots.now)) ≡ Some q →
        OnOk result (Follow ss (bytes_of gone.now) q next.old.items next.new.items) }
{
    if is_among(id, gone) {
        return Ok(());
    }
    let Some(seen) = find_in(attempt.slots, id) else {
        return Ok(());
    };
    let done = seen.done as usize + 1;
    let next_use = attempt
        .rig
        .next_use_at(&seen.row.id(), attempt.step, place, done);
    match use_try(&seen.row, next_use) {
        None => Ok(()),
        Some(tried) => {
            next.push(tried)?;
            Ok(())
        }
    }
}

/// The tries that follow for the first rows in hand with these ids, which the step names, but for those that leave.
pub(crate) fn all_next(
    alloc: Global,
    attempt: &Attempt,
    gone: &[Digest],
    first: &Digest,
    others: &[Digest],
) -> Result<Vec<Try>, AllocError>
    requires { AreSlotsFiled attempt.now.slots.now }
    ensures { (ss : List Step) (r : SeenRow) (ds : List SeenRow) → IsRigOf ss attempt.now.rig.now →
        AreFound (all_shown (parts_of attempt.now.slots.now)) (first.now.0 ∷ bytes_of others.now) (r ∷ ds) →
        IfOk result (λ v. AreNext ss (bytes_of gone.now) (r ∷ ds) v.items) }
{
    let mut next = Vec::new(alloc);
    add_next(attempt, 0, gone, first, &mut next)?;
    let mut place = 1usize;
    for id in others {
        add_next(attempt, place, gone, id, &mut next)?;
        place = place.saturating_add(1);
    }
    Ok(next)
}
