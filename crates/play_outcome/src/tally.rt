//! What the entries of a play tell, added up in their order.
ghost use Rattle.std.specs.Prelude.{◌≡◌, ◌<◌, ◌^◌, ℕ, Option, Some, length, IfOk};
ghost use Rattle.calculus.specs.Runs.{at_fault, done, step_of_work};
ghost use Rattle.events.specs.Entries.{steps_of};
ghost use Rattle.replays.specs.View.{verdict_of};
ghost use Rattle.hub_scenes.specs.Plays.{entries_of};
ghost use Rattle.play_hub.specs.Endings.{play_of};
ghost use Rattle.play_outcome.specs.Tallies.{IsTally, Tallies};

use calculus::FaultKind;
use event_log::LogStep;
use play_hub::{MadeStep, PlayEntry};
use replays::Verdict;
use std::alloc::{AllocError, Global};

/// What entries tell, in their order.
#[derive(Drop)]
pub struct Tally {
    /// The steps that were made.
    pub steps: Vec<LogStep>,
    /// The first fault, or Done.
    pub verdict: Verdict,
    /// What the steps print.
    pub output: Vec<u8>,
}

// The verdict with one more fault, which belongs to this step.
fn verdict_with(before: Verdict, fault: Option<FaultKind>, step: Option<u32>) -> Verdict
    ensures none { verdict_of before ≡ done → (i : ℕ) → step_of_work i ≡ step → verdict_of result ≡ at_fault i fault done }
    ensures some { (verdict_of before ≡ done → ⊥) → result ≡ before }
{
    match (before, fault) {
        (Verdict::Done, Some(kind)) => Verdict::Faulted { step, kind },
        _ => before,
    }
}

// Adds a step. Want of memory is the one error.
fn add_step(tally: &mut Tally, made: MadeStep) -> Result<(), AllocError>
    requires few { length tally.old.steps.items < 2 ^ 32 }
    ensures { (e : PlayEntry) → e.made ≡ Some made → Tallies result e tally.old tally.new }
{
    let MadeStep {
        step,
        gone: _,
        offers: _,
        price: _,
        fault,
        line,
    } = made;
    tally.output.extend_from_slice(line.as_slice())?;
    let index = tally.steps.len() as u32;
    tally.steps.push(step)?;
    tally.verdict = verdict_with(tally.verdict, fault, Some(index));
    Ok(())
}

// Adds an entry. Want of memory is the one error.
fn add_entry(tally: &mut Tally, entry: PlayEntry) -> Result<(), AllocError>
    requires few { length tally.old.steps.items < 2 ^ 32 }
    ensures { Tallies result entry tally.old tally.new }
{
    let PlayEntry {
        operation: _,
        made,
        touched: _,
    } = entry;
    match made {
        None => Ok(()),
        Some(made) => add_step(tally, made),
    }
}

/// What these entries tell, after a source with this fault. Want of memory is the one error.
pub fn tally_of(
    alloc: Global,
    entries: Vec<PlayEntry>,
    fault: Option<FaultKind>,
) -> Result<Tally, AllocError>
    requires few { length (steps_of (entries_of (play_of entries.items))) < 2 ^ 32 }
    ensures { IfOk result (IsTally fault entries.items) }
{
    let mut tally = Tally {
        steps: Vec::new(alloc),
        verdict: verdict_with(Verdict::Done, fault, None),
        output: Vec::new(alloc),
    };
    for entry in entries {
        add_entry(&mut tally, entry)?;
    }
    Ok(tally)
}
