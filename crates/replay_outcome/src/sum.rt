//! The sum of done steps in the order of the log.
ghost use Rattle.std.specs.Prelude.{◌≡◌, ◌<◌, ◌^◌, ◌++◌, ◌∷◌, [], ℕ, List, Option, length, IfOk};
ghost use Rattle.calculus.specs.Runs.{at_fault, done, step_of_work};
ghost use Rattle.replays.specs.View.{verdict_of};
ghost use Rattle.hub_scenes.specs.Spaces.{DidStep};
ghost use Rattle.replay_hub.specs.Values.{line_items};
ghost use Rattle.replay_outcome.specs.Settling.{IsSum, KeptFrom, SumsUp};

use crate::places::Came;
use calculus::FaultKind;
use replays::Verdict;
use std::alloc::{AllocError, Global};

/// What steps in order come to with the source before them.
#[derive(Drop)]
pub struct Sum {
    /// The price, or the greatest number where it is greater.
    pub total: u64,
    /// The first fault, or Done.
    pub verdict: Verdict,
    /// The lines that they print.
    pub lines: Vec<u8>,
}

/// The first step that is not done, or the sum of all.
#[derive(Drop)]
pub enum Summed {
    Undone(u32),
    Whole(Sum),
}

// The verdict with one more fault, which belongs to this step.
fn verdict_with(before: Verdict, fault: Option<FaultKind>, step: Option<u32>) -> Verdict
    ensures none { verdict_of before ≡ done → (i : ℕ) → step_of_work i ≡ step → verdict_of result ≡ at_fault i fault done }
    ensures some { (verdict_of before ≡ done → ⊥) → result ≡ before }
{
    match (before, fault) {
        (Verdict::Done, Some(kind)) => Verdict::Faulted { step, kind },
        _ => before,
    }
}

// Adds a line at the end, if there is one.
fn add_line(lines: &mut Vec<u8>, line: Option<Box<Vec<u8>>>) -> Result<(), AllocError>
    ensures { IfOk result (λ _. lines.new.items ≡ lines.old.items ++ line_items line) }
{
    match line {
        None => Ok(()),
        Some(line) => lines.extend_from_slice(line.as_slice()),
    }
}

// Adds a step.
fn add_step(sum: &mut Sum, index: u32, came: Came) -> Result<(), AllocError>
    ensures { (price : ℕ) (fault : Option FaultKind) (ds : List DidStep) (d : DidStep) → IsSum price fault ds sum.old →
        length ds ≡ index → came.price ≡ d.price → came.fault ≡ d.fault → line_items came.line ≡ d.line →
        IfOk result (λ _. IsSum price fault (ds ++ d ∷ []) sum.new) }
{
    let Came { price, fault, line } = came;
    add_line(&mut sum.lines, line)?;
    sum.total = sum.total.saturating_add(price);
    sum.verdict = verdict_with(sum.verdict, fault, Some(index));
    Ok(())
}

/// The sum of the steps that are kept, with the source's price and fault before them, or the first that is not done. Want of
/// memory is the one error.
pub(crate) fn sum_up(
    alloc: Global,
    places: Vec<Option<Came>>,
    price: u64,
    fault: Option<FaultKind>,
) -> Result<Summed, AllocError>
    requires few { length places.items < 2 ^ 32 }
    ensures { (ds : List DidStep) → KeptFrom 0 ds places.items → IfOk result (SumsUp (length places.items) price fault ds) }
{
    let mut sum = Sum {
        total: price,
        verdict: verdict_with(Verdict::Done, fault, None),
        lines: Vec::new(alloc),
    };
    let mut index = 0u32;
    for place in places {
        match place {
            None => return Ok(Summed::Undone(index)),
            Some(came) => add_step(&mut sum, index, came)?,
        }
        index += 1;
    }
    Ok(Summed::Whole(sum))
}
