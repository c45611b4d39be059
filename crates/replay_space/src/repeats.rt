// How often each step was made before.
ghost use Rattle.std.specs.Prelude.{◌≡◌, ◌<◌, ◌-◌, ◌++◌, ◌∷◌, ◌^◌, [], List, ℕ, length, count_by, IfOk};
ghost use Rattle.calculus.specs.Log.{Step};
ghost use Rattle.calculus.specs.Steps.{same_meeting};
ghost use Rattle.event_log.specs.View.{step_of};
ghost use Rattle.racing_replays.specs.Replaying.{names};
ghost use Rattle.replay_space.specs.Rigs.{AreCounts, IsLone};

use event_log::LogStep;
use std::alloc::{AllocError, Global};
use std::collections::BTreeMap;

/// How many steps there were with this receiver and these data, by the ids of all of these.
pub(crate) type Counts = BTreeMap<Vec<[u8; 32]>, u32>;

// The ids that a step names, the receiver's first. Want of memory is the one error.
fn step_key(alloc: Global, step: &LogStep) -> Result<Vec<[u8; 32]>, AllocError>
    ensures { IfOk result (λ v. v.items ≡ names (step_of step.now)) }
{
    let mut key = Vec::new(alloc);
    key.push(step.cont.0)?;
    for id in step.taken.as_slice() {
        key.push(id.0)?;
    }
    Ok(key)
}

/// How many equal steps there were, and from now on one more, for a step none of whose ids has one use alone in the log. Want
/// of memory is the one error.
pub(crate) fn count_step(
    alloc: Global,
    counts: &mut Counts,
    step: &LogStep,
) -> Result<u32, AllocError>
    ensures { (log before : List Step) → length before < 2 ^ 32 - 1 → (IsLone log (step_of step.now) → ⊥) →
        AreCounts log before counts.old.entries → IfOk result
        (λ n. (n ≡ count_by (same_meeting (step_of step.now)) before) ×
        AreCounts log (before ++ step_of step.now ∷ []) counts.new.entries) }
{
    let key = step_key(alloc, step)?;
    let count = match counts.get(key.as_slice()) {
        Some(count) => *count,
        None => 0,
    };
    counts.insert(key, count.saturating_add(1))?;
    Ok(count)
}
