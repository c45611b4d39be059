// What a run of the made input is given.
ghost use Rattle.std.specs.Prelude.{◌≡◌, ◌≤◌, [], IfOk, None, length};
ghost use Rattle.calculus.specs.Form.{IsClosed};
ghost use Rattle.made_input.specs.MadeInput.{made_text};
ghost use Rattle.input_faults.specs.Refusals.{refusal_of};
ghost use Rattle.run_inputs.specs.Given.{task_of, IsBase};
ghost use Rattle.sources.specs.Sources.{IsSourceOf};
ghost use Rattle.events.specs.States.{state_text};
ghost use Rattle.recorded_runs.specs.Made.{made_task};

use checkpoint::{Checkpoint, write_state};
use made_input::made_input;
use price_table::Prices;
use rho_term::Term;
use run_inputs::{Base, Inputs};
use sources::{SourceFault, read_source};
use std::alloc::{AllocError, Global};

/// The error of a fault of a source that says no refusal: memory is wanted.
fn memory_error(_fault: SourceFault) -> AllocError
    requires { refusal_of _fault ≡ None }
{
    AllocError
}

/// The process that the bytes of a made input spell. They are refused for nothing.
fn read_process(alloc: Global, steps: u32, source: &[u8]) -> Result<Term, AllocError>
    requires { source.now ≡ made_text steps }
    ensures term { IfOk result (IsSourceOf source.now) }
    ensures closed { IfOk result IsClosed }
{
    match read_source(alloc, source) {
        Ok(term) => Ok(term),
        Err(fault) => Err(memory_error(fault)),
    }
}

/// The empty state.
fn empty_base(alloc: Global) -> Result<Base, AllocError>
    ensures text { IfOk result (λ b. b.text.items ≡ state_text []) }
    ensures rows { IfOk result (λ b. b.checkpoint ≡ []) }
    ensures base { IfOk result IsBase }
{
    let checkpoint = Checkpoint::empty(alloc);
    let text = write_state(alloc, &checkpoint)?;
    let _rows = checkpoint.rows();
    Ok(Base { text, checkpoint })
}

/// What a run of the made input of so many steps is given: the empty state, the standard prices, its source and its process.
pub(crate) fn made_inputs(alloc: Global, steps: u32) -> Result<Inputs, AllocError>
    ensures task { IfOk result (λ i. task_of i ≡ made_task steps) }
    ensures rows { IfOk result (λ i. i.base.checkpoint ≡ []) }
    ensures base { IfOk result (λ i. IsBase i.base) }
    ensures term { IfOk result (λ i. IsSourceOf i.source.items i.term) }
    ensures closed { IfOk result (λ i. IsClosed i.term) }
    ensures short { IfOk result (λ i. length i.source.items ≤ 1048576) }
{
    let base = empty_base(alloc)?;
    let source = made_input(alloc, steps)?;
    let term = read_process(alloc, steps, source.as_slice())?;
    Ok(Inputs {
        base,
        prices: Prices::standard(),
        source,
        term,
    })
}
