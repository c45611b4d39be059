ghost use Rattle.std.specs.Prelude.{◌≡◌};
ghost use Rattle.rho_outside.specs.Causes.{Rose};
ghost use Rattle.run_inspects.specs.Inspects.{InspectEnds, IsInspect, Shows, ShowsInPart};
ghost use Rattle.run_reports.specs.World.{world};
ghost use Rattle.run_status.specs.Endings.{OnHalt, OnRefusal};

use crate::fetch::fetch_state;
use crate::lines::listing;
use rho_outside::{KeepFault, Shelf, Sink};
use run_status::Status;
use std::alloc::Global;

/// Puts the report and the rows of the state in the file of this name, in one piece. No file changes.
pub fn inspect<S: Shelf, O: Sink>(alloc: Global, name: &str, shelf: &mut S, out: &mut O) -> Status
    ensures { IsInspect name.now
        (world (S.files shelf.old) (S.fetch_faults shelf.old) (S.keep_faults shelf.old) (O.written out.old) (O.faults out.old))
        (world (S.files shelf.new) (S.fetch_faults shelf.new) (S.keep_faults shelf.new) (O.written out.new) (O.faults out.new)) result }
{
    show_state(alloc, name, shelf, out)
}

/// Shows a state, as `inspect` does.
fn show_state<S: Shelf, O: Sink>(alloc: Global, name: &str, shelf: &mut S, out: &mut O) -> Status
    ensures ends { InspectEnds (S.files shelf.old) name.now (S.fetch_faults shelf.old) (S.fetch_faults shelf.new) result }
    ensures files { S.files shelf.new ≡ S.files shelf.old }
    ensures keep_faults { S.keep_faults shelf.new ≡ S.keep_faults shelf.old }
    ensures stays { OnRefusal result (O.written out.new ≡ O.written out.old) }
    ensures all { result ≡ Status.Done → Shows (S.files shelf.old) name.now (O.written out.old) (O.written out.new) }
    ensures part { OnHalt result (ShowsInPart (S.files shelf.old) name.now (O.written out.old) (O.written out.new)) }
    ensures write_fault { result ≡ Status.WriteFault → Rose (O.faults out.old) (O.faults out.new) }
{
    let checkpoint = match fetch_state(alloc, shelf, name) {
        Ok(checkpoint) => checkpoint,
        Err(status) => return status,
    };
    let text = match listing(alloc, &checkpoint) {
        Ok(text) => text,
        Err(_) => return Status::NoMemory,
    };
    match out.put(alloc, text.as_slice()) {
        Ok(()) => Status::Done,
        Err(KeepFault::Failed) => Status::WriteFault,
        Err(KeepFault::NoMemory) => Status::NoMemory,
    }
}
