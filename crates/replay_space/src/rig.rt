// What is kept of a log.
ghost use Rattle.std.specs.Prelude.{◌≡◌, ◌<◌, ◌≤◌, ◌-◌, ◌^◌, ◌++◌, ◌∷◌, [], List, eqb, length, count_by, slice_get, IfOk};
ghost use Rattle.calculus.specs.Log.{Step};
ghost use Rattle.calculus.specs.Steps.{same_meeting};
ghost use Rattle.event_log.specs.declared.log.TheConstants.{MOST_STEPS};
ghost use Rattle.event_log.specs.View.{step_of, steps_of, IsWritable};
ghost use Rattle.racing_replays.specs.Counted.{uses};
ghost use Rattle.replay_space.specs.Rigs.{repeats_after, AreCounts, IsIndexOf, IsRigOf};

use crate::index::Index;
use crate::repeats::{Counts, count_step};
use calculus::Digest;
use event_log::{Log, LogStep};
use std::alloc::{AllocError, Global};
use std::collections::BTreeMap;

/// The uses of each id that a log names, and how often each of its steps stands before itself.
#[derive(Drop)]
pub struct Rig {
    index: Index,
    repeats: Vec<u32>,
}

// How often a step with this index stands before itself: never, where one of its ids has no other use.
fn next_repeat(
    alloc: Global,
    counts: &mut Counts,
    index: &Index,
    step: &LogStep,
    number: u32,
) -> Result<u32, AllocError>
    ensures { (log before after : List Step) → IsIndexOf log index.now → log ≡ before ++ step_of step.now ∷ after →
        length before < 2 ^ 32 - 1 → AreCounts log before counts.old.entries →
        IfOk result (λ n. (n ≡ count_by (same_meeting (step_of step.now)) before) ×
        AreCounts log (before ++ step_of step.now ∷ []) counts.new.entries) }
{
    if index.has_lone_id(step, number) {
        return Ok(0);
    }
    count_step(alloc, counts, step)
}

// How often each of these steps stands before itself.
fn repeats_of(alloc: Global, steps: &[LogStep], index: &Index) -> Result<Vec<u32>, AllocError>
    requires { length steps.now ≤ MOST_STEPS }
    ensures { IsIndexOf (steps_of steps.now) index.now → IfOk result (λ v. v.items ≡ repeats_after [] (steps_of steps.now)) }
{
    let mut counts = BTreeMap::new(alloc);
    let mut repeats = Vec::new(alloc);
    for i in 0..steps.len() {
        let repeat = next_repeat(alloc, &mut counts, index, &steps[i], i as u32)?;
        repeats.push(repeat)?;
    }
    Ok(repeats)
}

impl Rig {
    /// What is kept of a log. It takes time in proportion to the ids that the log names, and for each the logarithm of
    /// their number. Want of memory is the one error.
    pub fn from_log(alloc: Global, log: &Log) -> Result<Rig, AllocError>
        requires { IsWritable log.now }
        ensures { IfOk result (IsRigOf (steps_of log.now.steps.items)) }
    {
        let steps = log.steps.as_slice();
        let index = Index::from_steps(alloc, steps)?;
        let repeats = repeats_of(alloc, steps, &index)?;
        Ok(Rig { index, repeats })
    }

    /// The indices of the steps that name an id, ascending; none where no step does.
    pub fn uses(&self, id: &Digest) -> &[u32]
        ensures { (ss : List Step) → IsRigOf ss self.now → result.now ≡ uses id.now.0 0 ss }
    {
        self.index.uses(id)
    }

    /// The use of an id at a place among its uses, and None exactly where it has fewer.
    pub fn next_use(&self, id: &Digest, done: usize) -> Option<u32>
        ensures { (ss : List Step) → IsRigOf ss self.now → result ≡ slice_get (uses id.now.0 0 ss) done }
    {
        self.uses(id).get(done).copied()
    }

    /// The same. Where a step names the id at this place, the receiver's place being 0, nothing is looked up.
    pub fn next_use_at(&self, id: &Digest, step: u32, place: usize, done: usize) -> Option<u32>
        ensures { (ss : List Step) → IsRigOf ss self.now → result ≡ slice_get (uses id.now.0 0 ss) done }
    {
        self.index.uses_at(id, step, place).get(done).copied()
    }

    /// The same. Where this step names the id, nothing is looked up.
    pub fn next_use_near(&self, id: &Digest, step: u32, done: usize) -> Option<u32>
        ensures { (ss : List Step) → IsRigOf ss self.now → result ≡ slice_get (uses id.now.0 0 ss) done }
    {
        self.index.uses_near(id, step).get(done).copied()
    }

    /// How many steps below this one have the same receiver and the same data.
    pub fn repeat_of(&self, step: u32) -> u32
        requires { (ss : List Step) × (IsRigOf ss self.now × step < length ss) }
        ensures { (ss before : List Step) (s : Step) (after : List Step) → IsRigOf ss self.now → ss ≡ before ++ s ∷
            after → length before ≡ step → result ≡ count_by (same_meeting s) before }
    {
        self.repeats[step as usize]
    }

    /// Whether a step's repeat number is this.
    pub fn is_repeat(&self, step: u32, repeat: u32) -> bool
        requires { (ss : List Step) × (IsRigOf ss self.now × step < length ss) }
        ensures { (ss before : List Step) (s : Step) (after : List Step) → IsRigOf ss self.now → ss ≡ before ++ s ∷
            after → length before ≡ step → result ≡ eqb repeat (count_by (same_meeting s) before) }
    {
        repeat == self.repeat_of(step)
    }
}
