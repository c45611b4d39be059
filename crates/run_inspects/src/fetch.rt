ghost use Rattle.std.specs.Prelude.{◌≡◌, IfOk, IfErr};
ghost use Rattle.run_inspects.specs.Inspects.{AreGiven, HasRows, RefusedFor};

use checkpoint::Checkpoint;
use rho_outside::{FetchFault, Shelf};
use run_inputs::read_base;
use run_status::{Input, Status};
use std::alloc::Global;

/// The greatest number of bytes of a state.
const STATE_MAX: u64 = 268_435_456;

/// The bytes of the file of a state.
fn fetch_text<S: Shelf>(alloc: Global, shelf: &mut S, name: &str) -> Result<Vec<u8>, Status>
    ensures files { S.files shelf.new ≡ S.files shelf.old }
    ensures keep_faults { S.keep_faults shelf.new ≡ S.keep_faults shelf.old }
    ensures given { IfOk result (λ text. AreGiven (S.files shelf.old) name.now text.items) }
    ensures cause { IfErr result (RefusedFor (S.files shelf.old) name.now (S.fetch_faults shelf.old) (S.fetch_faults shelf.new)) }
{
    match shelf.fetch(alloc, name, STATE_MAX) {
        Ok(text) => Ok(text),
        Err(FetchFault::Missing | FetchFault::Failed) => Err(Status::ReadFault {
            input: Input::State,
        }),
        Err(FetchFault::TooLarge { seen }) => Err(Status::TooLarge {
            input: Input::State,
            seen,
            max: STATE_MAX,
        }),
        Err(FetchFault::NoMemory) => Err(Status::NoMemory),
    }
}

/// The state in the file of this name. Each refusal has its status.
pub(crate) fn fetch_state<S: Shelf>(
    alloc: Global,
    shelf: &mut S,
    name: &str,
) -> Result<Checkpoint, Status>
    ensures files { S.files shelf.new ≡ S.files shelf.old }
    ensures keep_faults { S.keep_faults shelf.new ≡ S.keep_faults shelf.old }
    ensures rows { IfOk result (λ rows. HasRows (S.files shelf.old) name.now rows) }
    ensures cause { IfErr result (RefusedFor (S.files shelf.old) name.now (S.fetch_faults shelf.old) (S.fetch_faults shelf.new)) }
{
    let text = fetch_text(alloc, shelf, name)?;
    Ok(read_base(alloc, text.as_slice())?)
}
