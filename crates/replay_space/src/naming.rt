// The ids that steps name, one by one.
ghost use Rattle.std.specs.Prelude.{◌≡◌, ◌<◌, ◌≤◌, ◌+◌, ◌*◌, ◌^◌, ◌++◌, ◌∷◌, [], List, ℕ, All, false, length, map as each, take, slice_index_or, IfOk};
ghost use Rattle.calculus.specs.Log.{Step};
ghost use Rattle.calculus.specs.Steps.{is_one_of};
ghost use Rattle.event_log.specs.View.{step_of, steps_of, TakesInRange};
ghost use Rattle.replay_space.specs.Rigs.{AreNamed};

use calculus::Digest;
use event_log::LogStep;
use std::alloc::{AllocError, Global};

/// A step names an id.
#[derive(Drop)]
pub(crate) struct Naming {
    pub id: [u8; 32],
    /// The index of the step.
    pub step: u32,
    /// Its place among all that is named.
    pub place: u32,
}

/// The ids that steps name, each once for a step, and where those of each step end.
#[derive(Drop)]
pub(crate) struct Namings {
    pub all: Vec<Naming>,
    pub ends: Vec<usize>,
}

// Whether an id is one of these.
fn is_among(id: &Digest, ids: &[Digest]) -> bool
    ensures { result ≡ is_one_of id.now.0 (each (λ (d : Digest). d.0) ids.now) }
{
    for other in ids {
        if id == other {
            return true;
        }
    }
    false
}

// Whether the id of the datum at this place of a step is its receiver's or that of a datum before it.
fn was_named(step: &LogStep, place: usize) -> bool
    requires { place < length step.now.taken.items }
    ensures { result ≡ is_one_of (slice_index_or step.now.taken.items place step.now.cont).0
        (step.now.cont.0 ∷ each (λ (d : Digest). d.0) (take place step.now.taken.items)) }
{
    let id = &step.taken[place];
    if id == &step.cont {
        return true;
    }
    is_among(id, &step.taken.as_slice()[..place])
}

impl Namings {
    /// None.
    pub(crate) fn new(alloc: Global) -> Namings
        ensures named { AreNamed [] [] result }
        ensures none { length result.all.items ≡ 0 }
    {
        Namings {
            all: Vec::new(alloc),
            ends: Vec::new(alloc),
        }
    }

    // Adds an id that the step of this index names, and has not named before.
    fn add(&mut self, id: &Digest, index: u32) -> Result<(), AllocError>
        ensures named { (before : List Step) (ids : List (List ℕ)) → length before ≡ index → is_one_of id.now.0 ids ≡
            false → AreNamed before ids self.old → IfOk result (λ _. AreNamed before (ids ++ id.now.0 ∷ []) self.new) }
        ensures few { IfOk result (λ _. length self.new.all.items ≤ length self.old.all.items + 1) }
    {
        let place = (self.all.len() % 0x1_0000_0000) as u32;
        self.all.push(Naming {
            id: id.0,
            step: index,
            place,
        })?;
        Ok(())
    }

    // Adds the id of the datum at this place of a step, unless the step has named it before.
    fn add_datum(&mut self, step: &LogStep, place: usize, index: u32) -> Result<(), AllocError>
        requires { place < length step.now.taken.items }
        ensures named { (before : List Step) → length before ≡ index →
            AreNamed before (step.now.cont.0 ∷ each (λ (d : Digest). d.0) (take place step.now.taken.items)) self.old →
            IfOk result (λ _. AreNamed before (step.now.cont.0 ∷
            each (λ (d : Digest). d.0) (take (place + 1) step.now.taken.items)) self.new) }
        ensures few { IfOk result (λ _. length self.new.all.items ≤ length self.old.all.items + 1) }
    {
        if was_named(step, place) {
            return Ok(());
        }
        self.add(&step.taken[place], index)
    }

    // Adds the ids that a step names. Want of memory is the one error.
    fn add_step(&mut self, step: &LogStep, index: u32) -> Result<(), AllocError>
        ensures named { (before : List Step) → length before ≡ index → AreNamed before [] self.old
            → IfOk result (λ _. AreNamed (before ++ step_of step.now ∷ []) [] self.new) }
        ensures few { IfOk result (λ _. length self.new.all.items ≤ length self.old.all.items + 1 + length step.now.taken.items) }
    {
        self.add(&step.cont, index)?;
        for place in 0..step.taken.len() {
            self.add_datum(step, place, index)?;
        }
        let end = self.all.len();
        self.ends.push(end)?;
        Ok(())
    }

    /// The ids that these steps name. Want of memory is the one error.
    pub(crate) fn from_steps(alloc: Global, steps: &[LogStep]) -> Result<Namings, AllocError>
        requires few { length steps.now < 2 ^ 32 }
        requires taken { All TakesInRange steps.now }
        ensures named { IfOk result (AreNamed (steps_of steps.now) []) }
        ensures few { IfOk result (λ v. length v.all.items ≤ 17 * length steps.now) }
    {
        let mut namings = Namings::new(alloc);
        for i in 0..steps.len() {
            namings.add_step(&steps[i], i as u32)?;
        }
        Ok(namings)
    }
}
