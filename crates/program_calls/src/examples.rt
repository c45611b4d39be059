//! Runs the examples in memory: each is deployed from the empty state, and its log is replayed.
use call_harness::{Ended, Harness, MOST_BYTES, Meeting, Outside, Told, call};
use rho_outside::{FileShelf, Shelf};
use std::alloc::{AllocError, Global};
use std::rt::Files;
use std::str;
use table_lines::LineFault;

/// The examples, by the names of their files.
const EXAMPLES: &[&str] = &[
    "hello.rho",
    "cell.rho",
    "bank.rho",
    "counter.rho",
    "table.rho",
    "auction.rho",
];

// Takes a file of the system, under its own name.
fn take_file<R: Files>(rt: &R, harness: &mut Harness, name: &str) {
    let mut shelf = FileShelf {
        rt,
        fetch_faults: 0,
        keep_faults: 0,
    };
    match shelf.fetch(harness.alloc, name, MOST_BYTES) {
        Ok(bytes) => harness.keep(name, bytes.as_slice()),
        Err(_) => harness.fail(no_file(harness.alloc, name)),
    }
}

fn no_file(alloc: Global, name: &str) -> LineFault {
    match format!(in alloc; "no file {name}") {
        Ok(told) => LineFault::Refused(told),
        Err(_) => LineFault::NoMemory,
    }
}

// Takes the source of an example and the prices.
fn take_files<R: Files>(rt: &R, harness: &mut Harness, source: &str) {
    take_file(rt, harness, source);
    take_file(rt, harness, "prices.toml");
}

fn genesis<F: Fn(&Meeting, &[String], &mut Outside) -> Result<Ended, AllocError>>(
    run: &F,
    harness: &mut Harness,
)
    requires { F.IsAlwaysCallable run.now }
{
    let text = String::from_str(harness.alloc, "genesis empty");
    call(run, harness, text, "next");
}

fn deploy<F: Fn(&Meeting, &[String], &mut Outside) -> Result<Ended, AllocError>>(
    run: &F,
    harness: &mut Harness,
    source: &str,
) -> Told
    requires { F.IsAlwaysCallable run.now }
{
    let alloc = harness.alloc;
    let text = format!(in alloc;
        "deploy {source} --state empty --prices prices.toml --log log --next next --limit 1000"
    );
    call(run, harness, text, "next")
}

fn replay<F: Fn(&Meeting, &[String], &mut Outside) -> Result<Ended, AllocError>>(
    run: &F,
    harness: &mut Harness,
    source: &str,
) -> Told
    requires { F.IsAlwaysCallable run.now }
{
    let alloc = harness.alloc;
    let text = format!(in alloc;
        "replay {source} --state empty --prices prices.toml --log log --next again"
    );
    call(run, harness, text, "again")
}

// What an example prints, and whether its replay says and leaves the same. Its files were taken.
fn tell_example<F: Fn(&Meeting, &[String], &mut Outside) -> Result<Ended, AllocError>>(
    run: &F,
    harness: &mut Harness,
    source: &str,
)
    requires { F.IsAlwaysCallable run.now }
{
    genesis(run, harness);
    let played = deploy(run, harness, source);
    let replayed = replay(run, harness, source);
    tell_both(harness, source, &played, &replayed);
}

fn tell_both(harness: &mut Harness, source: &str, played: &Told, replayed: &Told) {
    let alloc = harness.alloc;
    let name = source.trim_end_matches(".rho");
    let code = played.code;
    let alike = code == replayed.code && played.report == replayed.report;
    let same = !played.next.is_empty() && played.next == replayed.next;
    let text = format!(in alloc;
        "{name}: code {code}, replayed alike: {alike}, same state: {same}\n"
    );
    harness.tell_made(text);
    harness.tell(printed(played.report.as_slice()));
}

/// What stands before the report. Which rows meet decides their ids and what is evaluated, so the root and the cost may differ from
/// run to run.
fn printed(report: &[u8]) -> &str {
    let text = str::from_utf8(report).unwrap_or("no UTF-8");
    match text.split_once("{\"cost\":") {
        Some((before, _report)) => before,
        None => text,
    }
}

/// What each example came to: its codes and what it printed, one example after another. Their files lie where the program runs.
pub fn told<R: Files, F: Fn(&Meeting, &[String], &mut Outside) -> Result<Ended, AllocError>>(
    rt: &R,
    run: &F,
    alloc: Global,
) -> Result<String, LineFault>
    requires { F.IsAlwaysCallable run.now }
{
    let mut harness = Harness::new(alloc);
    for source in EXAMPLES {
        harness.clear_files();
        take_files(rt, &mut harness, *source);
        tell_example(run, &mut harness, *source);
    }
    harness.told()
}
