// The ids of a log's steps, by numbers.
ghost use Rattle.std.specs.Prelude.{◌≡◌, ◌≤◌, [], List, Some, All, length, slice_get, IfOk, IfSome};
ghost use Rattle.std.specs.Bool.{Decides};
ghost use Rattle.std.specs.Str.{bytes_eq};
ghost use Rattle.calculus.specs.Log.{Step};
ghost use Rattle.event_log.specs.declared.log.TheConstants.{MOST_STEPS};
ghost use Rattle.event_log.specs.View.{step_of, steps_of, TakesInRange};
ghost use Rattle.racing_replays.specs.Counted.{uses};
ghost use Rattle.replay_space.specs.Rigs.{IsIndexOf, IsLone};

use crate::draft::{Draft, Numbers};
use crate::lists::Lists;
use crate::naming::Namings;
use calculus::Digest;
use event_log::LogStep;
use std::alloc::{AllocError, Global};

/// The ids that the steps of a log name: the number of each, and its uses under its number. For each step it has the numbers
/// of its ids too, so that they need not be looked up.
#[derive(Drop)]
pub(crate) struct Index {
    numbers: Numbers,
    ids: Vec<[u8; 32]>,
    uses: Lists,
    names: Lists,
}

// Whether these bytes are an id.
fn is_id(known: &[u8; 32], id: &Digest) -> bool
    ensures { result ≡ bytes_eq known.now id.now.0 }
{
    known == &id.0
}

impl Index {
    /// The ids of these steps. Want of memory is the one error.
    pub(crate) fn from_steps(alloc: Global, steps: &[LogStep]) -> Result<Index, AllocError>
        requires few { length steps.now ≤ MOST_STEPS }
        requires taken { All TakesInRange steps.now }
        ensures { IfOk result (IsIndexOf (steps_of steps.now)) }
    {
        let Namings { all, ends } = Namings::from_steps(alloc, steps)?;
        let draft = Draft::from_namings(alloc, all.as_slice())?;
        let uses = Lists::from_vecs(alloc, draft.uses)?;
        Ok(Index {
            numbers: draft.numbers,
            ids: draft.ids,
            uses,
            names: Lists::from_ends(ends, draft.names),
        })
    }

    /// The indices of the steps that name an id, ascending; none where no step does.
    pub(crate) fn uses(&self, id: &Digest) -> &[u32]
        ensures { (ss : List Step) → IsIndexOf ss self.now → result.now ≡ uses id.now.0 0 ss }
    {
        match self.numbers.get(&id.0) {
            Some(number) => self.uses.at(*number),
            None => &[],
        }
    }

    // The number of an id, where it is the one that a step names at this place.
    fn number_at(&self, id: &Digest, step: u32, place: usize) -> Option<u32>
        ensures { IfSome result (λ n. slice_get self.now.ids.items n ≡ Some id.now.0) }
    {
        let number = *self.names.at(step).get(place)?;
        let known = self.ids.get(number as usize)?;
        if !is_id(known, id) {
            return None;
        }
        Some(number)
    }

    /// The same. Where the step names the id at this place, the receiver's place being 0, nothing is looked up.
    pub(crate) fn uses_at(&self, id: &Digest, step: u32, place: usize) -> &[u32]
        ensures { (ss : List Step) → IsIndexOf ss self.now → result.now ≡ uses id.now.0 0 ss }
    {
        match self.number_at(id, step, place) {
            Some(number) => self.uses.at(number),
            None => self.uses(id),
        }
    }

    // The number of an id, where it is one of those that a step names.
    fn number_near(&self, id: &Digest, step: u32) -> Option<u32>
        ensures { IfSome result (λ n. slice_get self.now.ids.items n ≡ Some id.now.0) }
    {
        for place in 0..self.names.at(step).len() {
            if let Some(number) = self.number_at(id, step, place) {
                return Some(number);
            }
        }
        None
    }

    /// The same. Where the step names the id at any place, nothing is looked up.
    pub(crate) fn uses_near(&self, id: &Digest, step: u32) -> &[u32]
        ensures { (ss : List Step) → IsIndexOf ss self.now → result.now ≡ uses id.now.0 0 ss }
    {
        match self.number_near(id, step) {
            Some(number) => self.uses.at(number),
            None => self.uses(id),
        }
    }

    // Whether an id has one use alone. A step names it at this place.
    fn is_lone(&self, id: &Digest, step: u32, place: usize) -> bool
        ensures { (ss : List Step) → IsIndexOf ss self.now → Decides result (length (uses id.now.0 0 ss) ≡ 1) }
    {
        self.uses_at(id, step, place).len() == 1
    }

    /// Whether one of the ids of a step has no other use. The step has this index.
    pub(crate) fn has_lone_id(&self, step: &LogStep, index: u32) -> bool
        ensures { (ss : List Step) → IsIndexOf ss self.now → Decides result (IsLone ss (step_of step.now)) }
    {
        if self.is_lone(&step.cont, index, 0) {
            return true;
        }
        for i in 0..step.taken.len() {
            if self.is_lone(&step.taken[i], index, i + 1) {
                return true;
            }
        }
        false
    }
}
