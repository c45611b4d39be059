//! Calls of the program, over files in memory.
use crate::channels::{apart, receives, sends};
use crate::direct::replayed;
use call_harness::{Ended, Harness, Meeting, Outside, file};
use numbered_jobs::Crew;
use replay_runs::Replayed;
use std::alloc::{AllocError, Global};
use std::str;
use std::sync::Wait;
use std::thread::Threads;
use table_lines::LineFault;

const PRICES: &[u8] = b"comm = 10\nsend = 3\nreceive = 4\nname = 2\ncase = 1\nop = 1\nbyte = 0\n";

const STORE: &str =
    "deploy receives --state empty --prices prices --limit 1000 --log first --next state --workers 1";

const DEPLOY: &str =
    "deploy sends --state state --prices prices --limit 1000 --log log --next next --workers 2";

const REPLAY: &str =
    "replay sends --state state --prices prices --log log --next again --workers 2";

// Keeps the prices, the receives and the sends.
fn keep_all(harness: &mut Harness, numbers: &[u32]) {
    let alloc = harness.alloc;
    harness.keep("prices", PRICES);
    keep_made(harness, "receives", receives(alloc, numbers));
    keep_made(harness, "sends", sends(alloc, numbers));
}

// Keeps a file of a text that was made.
fn keep_made(harness: &mut Harness, name: &str, text: Result<String, AllocError>) {
    match text {
        Ok(text) => harness.keep(name, text.as_bytes()),
        Err(_) => harness.fail(LineFault::NoMemory),
    }
}

// Runs the words of a text with a gate at which two workers meet, and tells its code and what it put.
fn meet<R: Wait, F: Fn(&Meeting, &[String], &mut Outside) -> Result<Ended, AllocError>>(
    rt: &R,
    run: &F,
    harness: &mut Harness,
    name: &str,
    text: &str,
)
    requires { F.IsAlwaysCallable run.now }
{
    let gate = Meeting::new();
    harness.clear_output();
    harness.call_at(run, &gate, text);
    tell_gate(rt, harness, name, &gate);
    tell_end(harness);
}

// Tells whether the workers met at a gate.
fn tell_gate<R: Wait>(rt: &R, harness: &mut Harness, name: &str, gate: &Meeting) {
    let alloc = harness.alloc;
    let (met, failed) = gate.outcome(rt);
    let text = format!(in alloc; "{name}: met {met}, gave up {failed}, ");
    harness.tell_made(text);
}

// Tells the code of a call, and what it put.
fn tell_end(harness: &mut Harness) {
    let alloc = harness.alloc;
    let put = str::from_utf8(harness.outside.out.bytes.as_slice()).unwrap_or("no UTF-8");
    let text = format!(in alloc; "code {}, {put}", harness.ended.code);
    harness.tell_made(text);
}

// The replay of the same log by two workers, called directly, with a gate.
fn replay_directly<R: Threads + Wait + Sync>(
    rt: &R,
    harness: &mut Harness,
    gate: &Meeting,
) -> Result<Replayed, LineFault> {
    let state = file(harness, "state");
    let source = file(harness, "sends");
    let log = file(harness, "log");
    let crew = Crew {
        rt,
        alloc: harness.alloc,
        gate,
        workers: 2,
    };
    replayed(&crew, state.as_slice(), source.as_slice(), log.as_slice())
}

// The same with a gate at which the workers meet.
fn meet_directly<R: Threads + Wait + Sync>(rt: &R, harness: &mut Harness) {
    let gate = Meeting::new();
    match replay_directly(rt, harness, &gate) {
        Ok(ended) => {
            tell_gate(rt, harness, "directly", &gate);
            tell_replayed(harness, &ended);
        }
        Err(fault) => harness.fail(fault),
    }
}

fn tell_replayed(harness: &mut Harness, ended: &Replayed) {
    let alloc = harness.alloc;
    let text = format!(in alloc; "{:?}, {} rows\n", ended.verdict, ended.rows.len());
    harness.tell_made(text);
}

/// A deploy of eight sends by two workers, from a state of eight receives, and its replay by two, each with a gate at which the
/// workers meet.
pub fn told<
    R: Threads + Wait + Sync,
    F: Fn(&Meeting, &[String], &mut Outside) -> Result<Ended, AllocError>,
>(rt: &R, run: &F, alloc: Global) -> Result<String, LineFault>
    requires { F.IsAlwaysCallable run.now }
{
    let numbers = apart(alloc)?;
    let mut harness = Harness::new(alloc);
    keep_all(&mut harness, numbers.as_slice());
    harness.call(run, "genesis empty");
    harness.call(run, STORE);
    meet(rt, run, &mut harness, "deploy", DEPLOY);
    meet(rt, run, &mut harness, "replay", REPLAY);
    meet_directly(rt, &mut harness);
    harness.told()
}
