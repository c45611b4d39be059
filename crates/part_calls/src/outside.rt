//! What no clause says: the edge of the system, and that each call succeeds once.
use crate::slow::{read_slowly, write_slowly};
use rho_outside::system::ReadFault;
use rho_outside::{
    CalmShelf, FetchFault, FileShelf, Gate, KeepFault, MemShelf, MemSink, Moment, OpenGate, Shelf,
    Sink, StdSink,
};
use std::alloc::{AllocError, Global};
use std::io::ErrorKind;
use std::rt::Files;
use std::sync::Wait;
use table_lines::{Case, LineFault, put_cases};

// Whether a fetch gave these bytes.
fn gave(fetched: Result<Vec<u8>, FetchFault>, bytes: &[u8]) -> bool {
    match fetched {
        Ok(found) => found.as_slice() == bytes,
        Err(_) => false,
    }
}

fn keep_and_fetch<S: Shelf>(alloc: Global, case: &mut Case, shelf: &mut S, name: &str) {
    case.must(shelf.keep(alloc, name, b"seven b") == Ok(()));
    case.must(gave(shelf.fetch(alloc, name, 7), b"seven b"));

    case.must(shelf.keep(alloc, name, b"ab") == Ok(()));
    case.must(gave(shelf.fetch(alloc, name, u64::MAX), b"ab"));

    let missing = shelf.fetch(alloc, "no_such_file", 6).err();
    case.must(missing == Some(FetchFault::Missing));
}

fn put_twice<O: Sink>(alloc: Global, case: &mut Case, out: &mut O) {
    case.must(out.put(alloc, b"one ") == Ok(()));
    case.must(out.put(alloc, b"two\n") == Ok(()));
}

fn calm_shelf_keeps_and_fetches(alloc: Global) -> Case {
    let mut case = Case::new();
    let mut shelf = CalmShelf::new(alloc);
    keep_and_fetch(alloc, &mut case, &mut shelf, "a");
    case
}

fn mem_shelf_answers_by_the_limit(alloc: Global) -> Case {
    let mut case = Case::new();
    let mut shelf = MemShelf::new(alloc);
    case.must(shelf.keep(alloc, "five", b"12345") == Ok(()));
    let too_large = Some(FetchFault::TooLarge { seen: 5 });
    case.must(shelf.fetch(alloc, "five", 4).err() == too_large);
    case.must(shelf.fetch(alloc, "five", 0).err() == too_large);
    case.must(shelf.fetch(alloc, "absent", 4).err() == Some(FetchFault::Missing));
    case.must(shelf.keep(alloc, "two", b"ab") == Ok(()));
    case.must(gave(shelf.fetch(alloc, "two", 2), b"ab"));
    case.must((shelf.fetch_faults, shelf.keep_faults) == (0, 0));
    case
}

fn mem_shelf_fails_the_named_calls(alloc: Global) -> Result<Case, AllocError> {
    let mut case = Case::new();
    let mut shelf = MemShelf::new(alloc);
    shelf.failing.push(5)?;
    shelf.failing.push(7)?;
    keep_and_fetch(alloc, &mut case, &mut shelf, "a");
    case.must(shelf.fetch_faults == 0);
    case.must(shelf.fetch(alloc, "a", 9).err() == Some(FetchFault::Failed));
    case.must(shelf.keep(alloc, "a", b"") == Ok(()));
    case.must(shelf.keep(alloc, "a", b"x") == Err(KeepFault::Failed));
    case.must(shelf.fetch_faults == 1);
    case.must(shelf.keep_faults == 1);
    case.must(shelf.calls == 8);
    case.must(gave(shelf.fetch(alloc, "a", 9), b""));
    Ok(case)
}

fn mem_sink_fails_the_named_calls(alloc: Global) -> Result<Case, AllocError> {
    let mut case = Case::new();
    let mut out = MemSink::new(alloc);
    out.failing.push(2)?;
    put_twice(alloc, &mut case, &mut out);
    case.must(out.put(alloc, b"three") == Err(KeepFault::Failed));
    case.must(out.put(alloc, b"four") == Ok(()));
    case.must(out.bytes.as_slice() == b"one two\nfour".as_slice());
    case.must(out.faults == 1);
    Ok(case)
}

fn file_shelf_keeps_fetches_and_counts<R: Files>(rt: &R, alloc: Global) -> Case {
    let mut case = Case::new();
    let mut shelf = FileShelf {
        rt,
        fetch_faults: 0,
        keep_faults: 0,
    };
    keep_and_fetch(alloc, &mut case, &mut shelf, "kept_file");
    case.must(shelf.fetch_faults == 1);

    case.must(shelf.keep(alloc, "kept_file", b"seven b") == Ok(()));
    let refused = shelf.fetch(alloc, "kept_file", 4).err();
    case.must(refused == Some(FetchFault::TooLarge { seen: 5 }));
    case.must(shelf.fetch(alloc, ".", 4).err() == Some(FetchFault::Failed));
    case.must(shelf.fetch_faults == 2);

    let unkept = shelf.keep(alloc, "no/such/folder", b"x");
    case.must(unkept == Err(KeepFault::Failed));
    case.must(shelf.keep_faults == 1);
    case
}

fn std_sink_puts<R: Print>(rt: &R, alloc: Global) -> Case {
    let mut case = Case::new();
    let mut out = StdSink { rt, faults: 0 };
    put_twice(alloc, &mut case, &mut out);
    case.must(out.faults == 0);
    case
}

fn an_interrupted_reader_is_read_on_and_a_failing_one_fails(alloc: Global) -> Case {
    let mut case = Case::new();
    case.must(read_slowly(alloc, 9, ErrorKind::Interrupted) == Ok(3));
    case.must(read_slowly(alloc, 2, ErrorKind::Interrupted) == Ok(2));
    case.must(read_slowly(alloc, 9, ErrorKind::Other) == Err(ReadFault::Failed));
    case
}

fn a_writer_that_takes_nothing_or_fails_is_counted() -> Case {
    let mut case = Case::new();
    let failed = Err(KeepFault::Failed);
    case.must(write_slowly(3, ErrorKind::Interrupted) == (Ok(()), 0));
    case.must(write_slowly(2, ErrorKind::Interrupted) == (failed, 1));
    case.must(write_slowly(3, ErrorKind::Other) == (failed, 1));
    case
}

// That it returns.
fn open_gate_lets_all_pass<R: Wait>(rt: &R) -> Case {
    OpenGate.pass(rt, 0, Moment::Held { shards: 1 });
    OpenGate.pass(rt, 0, Moment::Freed { shards: 1 });
    Case::new()
}

/// Puts the line of each case.
pub fn put_all<R: Files + Print + Wait>(
    rt: &R,
    alloc: Global,
    told: &mut String,
) -> Result<(), LineFault> {
    let failing_shelf = mem_shelf_fails_the_named_calls(alloc)?;
    let failing_sink = mem_sink_fails_the_named_calls(alloc)?;
    let cases = [
        (
            "calm_shelf_keeps_and_fetches",
            calm_shelf_keeps_and_fetches(alloc),
        ),
        (
            "mem_shelf_answers_by_the_limit",
            mem_shelf_answers_by_the_limit(alloc),
        ),
        ("mem_shelf_fails_the_named_calls", failing_shelf),
        ("mem_sink_fails_the_named_calls", failing_sink),
        (
            "file_shelf_keeps_fetches_and_counts",
            file_shelf_keeps_fetches_and_counts(rt, alloc),
        ),
        ("std_sink_puts", std_sink_puts(rt, alloc)),
        (
            "an_interrupted_reader_is_read_on_and_a_failing_one_fails",
            an_interrupted_reader_is_read_on_and_a_failing_one_fails(alloc),
        ),
        (
            "a_writer_that_takes_nothing_or_fails_is_counted",
            a_writer_that_takes_nothing_or_fails_is_counted(),
        ),
        ("open_gate_lets_all_pass", open_gate_lets_all_pass(rt)),
    ];
    put_cases(alloc, told, cases.as_slice())
}
