ghost use Rattle.std.specs.Prelude.{◌≡◌, ◌≤◌, ◌∷◌, [], OnOk, OnErr, IsErrOf};
ghost use Rattle.rho_outside.specs.Causes.{Rose};
ghost use Rattle.rho_outside.specs.Put.{GrewBy, GrewByPart};
ghost use Rattle.run_reports.specs.Stops.{file_of, SetsAll, SetsInPart, StopsOnTheWay, WriteFailed};
ghost use Rattle.run_reports.specs.World.{world};
ghost use Rattle.run_reports.specs.Halts.{halt_of};

use rho_outside::{KeepFault, Shelf, Sink};
use std::alloc::Global;

/// Why the last steps of a verb ended early.
#[derive(Clone, Copy, Debug, PartialEq, Eq)]
pub enum Halt {
    WriteFault,
    NoMemory,
}

fn halt_of(fault: KeepFault) -> Halt
    ensures { result ≡ halt_of fault }
{
    match fault {
        KeepFault::Failed => Halt::WriteFault,
        KeepFault::NoMemory => Halt::NoMemory,
    }
}

/// Keeps one file.
fn keep_file<S: Shelf>(alloc: Global, shelf: &mut S, name: &str, bytes: &[u8]) -> Result<(), Halt>
    ensures kept { OnOk result (SetsAll ((name.now, bytes.now) ∷ []) S.files shelf.old shelf.new) }
    ensures part { OnErr result (SetsInPart ((name.now, bytes.now) ∷ []) S.files S.keep_faults shelf.old shelf.new) }
    ensures cause { IsErrOf result Halt.WriteFault → Rose (S.keep_faults shelf.old) (S.keep_faults shelf.new) }
    ensures fetch_faults { S.fetch_faults shelf.new ≡ S.fetch_faults shelf.old }
    ensures keep_faults { S.keep_faults shelf.old ≤ S.keep_faults shelf.new }
{
    shelf.keep(alloc, name, bytes).map_err(halt_of)
}

/// Keeps two files, one after the other.
fn keep_both<S: Shelf>(
    alloc: Global,
    shelf: &mut S,
    first: (&str, &[u8]),
    second: (&str, &[u8]),
) -> Result<(), Halt>
    ensures kept { OnOk result (SetsAll (file_of first.entry ∷ file_of second.entry ∷ []) S.files shelf.old shelf.new) }
    ensures part { OnErr result (SetsInPart (file_of first.entry ∷ file_of second.entry ∷ []) S.files S.keep_faults shelf.old shelf.new) }
    ensures cause { IsErrOf result Halt.WriteFault → Rose (S.keep_faults shelf.old) (S.keep_faults shelf.new) }
    ensures fetch_faults { S.fetch_faults shelf.new ≡ S.fetch_faults shelf.old }
    ensures keep_faults { S.keep_faults shelf.old ≤ S.keep_faults shelf.new }
{
    keep_file(alloc, shelf, first.0, first.1)?;
    keep_file(alloc, shelf, second.0, second.1)
}

/// Puts bytes to the output.
fn put_bytes<O: Sink>(alloc: Global, out: &mut O, bytes: &[u8]) -> Result<(), Halt>
    ensures put { OnOk result (GrewBy bytes.now (O.written out.old) (O.written out.new)) }
    ensures part { OnErr result (GrewByPart bytes.now (O.written out.old) (O.written out.new)) }
    ensures cause { IsErrOf result Halt.WriteFault → Rose (O.faults out.old) (O.faults out.new) }
    ensures faults { O.faults out.old ≤ O.faults out.new }
{
    out.put(alloc, bytes).map_err(halt_of)
}

/// Keeps one file, and then puts bytes. A file is its name and its bytes.
pub fn keep_and_put<S: Shelf, O: Sink>(
    alloc: Global,
    shelf: &mut S,
    out: &mut O,
    file: (&str, &[u8]),
    bytes: &[u8],
) -> Result<(), Halt>
    ensures kept { OnOk result (SetsAll (file_of file.entry ∷ []) S.files shelf.old shelf.new) }
    ensures put { OnOk result (GrewBy bytes.now (O.written out.old) (O.written out.new)) }
    ensures part { OnErr result (StopsOnTheWay (file_of file.entry ∷ []) bytes.now
        (world (S.files shelf.old) (S.fetch_faults shelf.old) (S.keep_faults shelf.old) (O.written out.old) (O.faults out.old))
        (world (S.files shelf.new) (S.fetch_faults shelf.new) (S.keep_faults shelf.new) (O.written out.new) (O.faults out.new))) }
    ensures cause { IsErrOf result Halt.WriteFault → WriteFailed S.keep_faults shelf.old shelf.new O.faults out.old out.new }
    ensures fetch_faults { S.fetch_faults shelf.new ≡ S.fetch_faults shelf.old }
{
    keep_file(alloc, shelf, file.0, file.1)?;
    put_bytes(alloc, out, bytes)
}

/// Keeps two files, one after the other, and then puts bytes.
pub fn keep_both_and_put<S: Shelf, O: Sink>(
    alloc: Global,
    shelf: &mut S,
    out: &mut O,
    first: (&str, &[u8]),
    second: (&str, &[u8]),
    bytes: &[u8],
) -> Result<(), Halt>
    ensures kept { OnOk result (SetsAll (file_of first.entry ∷ file_of second.entry ∷ []) S.files shelf.old shelf.new) }
    ensures put { OnOk result (GrewBy bytes.now (O.written out.old) (O.written out.new)) }
    ensures part { OnErr result (StopsOnTheWay (file_of first.entry ∷ file_of second.entry ∷ []) bytes.now
        (world (S.files shelf.old) (S.fetch_faults shelf.old) (S.keep_faults shelf.old) (O.written out.old) (O.faults out.old))
        (world (S.files shelf.new) (S.fetch_faults shelf.new) (S.keep_faults shelf.new) (O.written out.new) (O.faults out.new))) }
    ensures cause { IsErrOf result Halt.WriteFault → WriteFailed S.keep_faults shelf.old shelf.new O.faults out.old out.new }
    ensures fetch_faults { S.fetch_faults shelf.new ≡ S.fetch_faults shelf.old }
{
    keep_both(alloc, shelf, first, second)?;
    put_bytes(alloc, out, bytes)
}
