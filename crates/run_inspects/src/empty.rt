ghost use Rattle.std.specs.Prelude.{◌≡◌, ◌⊎◌};
ghost use Rattle.rho_outside.specs.Causes.{Rose};
ghost use Rattle.run_reports.specs.Stops.{StopsOnTheWay, WriteFailed};
ghost use Rattle.run_status.specs.Endings.{OnHalt};
ghost use Rattle.run_inspects.specs.Genesis.{IsGenesis, EndsGenesis, FoundsAll, empty_line, entries_of};
ghost use Rattle.run_reports.specs.World.{world};

use name_seed::EMPTY_ROOT;
use rho_outside::{Shelf, Sink};
use run_reports::{Halt, keep_and_put, state_report};
use run_status::Status;
use std::alloc::Global;

/// The empty state: its name, the version, a root of zeros and no rows.
const EMPTY_STATE: &[u8] =
    b"RHOSTATE\x01\0\0\0\0\0\0\0\0\0\0\0\0\0\0\0\0\0\0\0\0\0\0\0\0\0\0\0\0\0\0\0\0\0\0\0\0\0\0\0\0";

/// Makes the empty state: keeps it under a name, and then puts its report.
pub fn genesis<S: Shelf, O: Sink>(alloc: Global, name: &str, shelf: &mut S, out: &mut O) -> Status
    ensures { IsGenesis name.now
        (world (S.files shelf.old) (S.fetch_faults shelf.old) (S.keep_faults shelf.old) (O.written out.old) (O.faults out.old))
        (world (S.files shelf.new) (S.fetch_faults shelf.new) (S.keep_faults shelf.new) (O.written out.new) (O.faults out.new)) result }
{
    genesis_made(alloc, name, shelf, out)
}

/// Makes the empty state, as `genesis` does.
fn genesis_made<S: Shelf, O: Sink>(alloc: Global, name: &str, shelf: &mut S, out: &mut O) -> Status
    ensures ends { EndsGenesis result }
    ensures all { result ≡ Status.Done → FoundsAll name.now
        (world (S.files shelf.old) (S.fetch_faults shelf.old) (S.keep_faults shelf.old) (O.written out.old) (O.faults out.old))
        (world (S.files shelf.new) (S.fetch_faults shelf.new) (S.keep_faults shelf.new) (O.written out.new) (O.faults out.new)) }
    ensures part { OnHalt result (StopsOnTheWay (entries_of name.now) empty_line
        (world (S.files shelf.old) (S.fetch_faults shelf.old) (S.keep_faults shelf.old) (O.written out.old) (O.faults out.old))
        (world (S.files shelf.new) (S.fetch_faults shelf.new) (S.keep_faults shelf.new) (O.written out.new) (O.faults out.new))) }
    ensures write_fault { result ≡ Status.WriteFault → WriteFailed S.keep_faults shelf.old shelf.new O.faults out.old out.new }
    ensures complete { ¬ (Rose (S.keep_faults shelf.old) (S.keep_faults shelf.new)) → ¬ (Rose (O.faults out.old) (O.faults out.new))
        → (result ≡ Status.Done) ⊎ (result ≡ Status.NoMemory) }
{
    let line = match state_report(alloc, &EMPTY_ROOT, 0) {
        Ok(line) => line,
        Err(_) => return Status::NoMemory,
    };
    match keep_and_put(alloc, shelf, out, (name, EMPTY_STATE), line.as_slice()) {
        Ok(()) => Status::Done,
        Err(Halt::WriteFault) => Status::WriteFault,
        Err(Halt::NoMemory) => Status::NoMemory,
    }
}
