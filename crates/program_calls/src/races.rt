//! Deploys by several workers, and their replays. The files are the empty state `s`, the prices `p`, the source `d`, the log
//! `l`, and the next states `n` of a deploy and `m` of a replay.
use call_harness::{Ended, Harness, Meeting, Outside, Told, call, file};
use std::alloc::{AllocError, Global};
use table_lines::{LineFault, first_field};

const PRICES: &[u8] = b"comm = 10\nsend = 3\nreceive = 4\nname = 2\ncase = 1\nop = 1\nbyte = 0\n";

/// How many workers deploy, and how many replay.
const DEPLOYERS: &[u32] = &[1, 2, 4, 32];

const REPLAYERS: &[u32] = &[1, 2, 3, 8];

/// The answer to a line of this kind, whose fields are a limit and a source.
pub fn paired<F: Fn(&Meeting, &[String], &mut Outside) -> Result<Ended, AllocError>>(
    run: &F,
    alloc: Global,
    word: &str,
    fields: &str,
) -> Result<String, LineFault>
    requires { F.IsAlwaysCallable run.now }
{
    let (limit, source) = first_field(fields)?;
    let mut harness = Harness::new(alloc);
    set_inputs(run, &mut harness, source);
    match word {
        "race" => race(run, &mut harness, limit),
        "damage" => damage(run, &mut harness, limit),
        _ => harness.fail(LineFault::Kind),
    }
    harness.told()
}

fn set_inputs<F: Fn(&Meeting, &[String], &mut Outside) -> Result<Ended, AllocError>>(
    run: &F,
    harness: &mut Harness,
    source: &str,
)
    requires { F.IsAlwaysCallable run.now }
{
    harness.keep("p", PRICES);
    harness.keep_text("d", source);
    let text = String::from_str(harness.alloc, "genesis s");
    call(run, harness, text, "n");
}

fn deploy<F: Fn(&Meeting, &[String], &mut Outside) -> Result<Ended, AllocError>>(
    run: &F,
    harness: &mut Harness,
    limit: &str,
    workers: u32,
) -> Told
    requires { F.IsAlwaysCallable run.now }
{
    let alloc = harness.alloc;
    let text = format!(in alloc;
        "deploy d --state s --prices p --limit {limit} --log l --next n --workers {workers}"
    );
    call(run, harness, text, "n")
}

fn replay<F: Fn(&Meeting, &[String], &mut Outside) -> Result<Ended, AllocError>>(
    run: &F,
    harness: &mut Harness,
    workers: u32,
) -> Told
    requires { F.IsAlwaysCallable run.now }
{
    let alloc = harness.alloc;
    let text = format!(in alloc;
        "replay d --state s --prices p --log l --next m --workers {workers}"
    );
    call(run, harness, text, "m")
}

/// Deploys a source with 1, 2, 4 and 32 workers, and replays each log with 1, 2, 3 and 8: whether each replay came to what its
/// deploy did.
fn race<F: Fn(&Meeting, &[String], &mut Outside) -> Result<Ended, AllocError>>(
    run: &F,
    harness: &mut Harness,
    limit: &str,
)
    requires { F.IsAlwaysCallable run.now }
{
    for workers in DEPLOYERS {
        if !agree(run, harness, limit, *workers) {
            return;
        }
    }
    harness.tell("agree");
}

// Whether each replay of a deploy by so many workers came to what the deploy did. It tells of the first that did not.
fn agree<F: Fn(&Meeting, &[String], &mut Outside) -> Result<Ended, AllocError>>(
    run: &F,
    harness: &mut Harness,
    limit: &str,
    workers: u32,
) -> bool
    requires { F.IsAlwaysCallable run.now }
{
    let deployed = deploy(run, harness, limit, workers);
    for others in REPLAYERS {
        let replayed = replay(run, harness, *others);
        if !deployed.agrees(&replayed) {
            tell_race(harness, (workers, deployed.code), (*others, replayed.code));
            return false;
        }
    }
    true
}

// Tells how many workers deployed and how many replayed, each with their code.
fn tell_race(harness: &mut Harness, deployed: (u32, u8), replayed: (u32, u8)) {
    let alloc = harness.alloc;
    let (workers, one) = deployed;
    let (others, other) = replayed;
    let text = format!(in alloc;
        "{workers} workers: code {one}, {others} to replay it: code {other}"
    );
    harness.tell_made(text);
}

/// Deploys a source with one worker, and changes each byte of its log in turn: whether one worker and four come to the same
/// answer to it.
fn damage<F: Fn(&Meeting, &[String], &mut Outside) -> Result<Ended, AllocError>>(
    run: &F,
    harness: &mut Harness,
    limit: &str,
)
    requires { F.IsAlwaysCallable run.now }
{
    deploy(run, harness, limit, 1);
    let mut log = file(harness, "l");
    for at in 0..log.len() {
        change(&mut log, at);
        harness.keep("l", log.as_slice());
        if !agree_at(run, harness, at) {
            return;
        }
        change(&mut log, at);
    }
    harness.tell("agree");
}

// Changes the byte at a place; a second time it is as it was.
fn change(bytes: &mut Vec<u8>, at: usize) {
    if at < bytes.len() {
        bytes[at] ^= 1;
    }
}

// Whether the replays by one worker and by four came to the same, where the byte at a place was changed. Else it tells of them.
fn agree_at<F: Fn(&Meeting, &[String], &mut Outside) -> Result<Ended, AllocError>>(
    run: &F,
    harness: &mut Harness,
    at: usize,
) -> bool
    requires { F.IsAlwaysCallable run.now }
{
    let one = replay(run, harness, 1);
    let four = replay(run, harness, 4);
    if one.agrees(&four) {
        return true;
    }
    tell_damage(harness, at, one.code, four.code);
    false
}

fn tell_damage(harness: &mut Harness, at: usize, one: u8, four: u8) {
    let alloc = harness.alloc;
    let text = format!(in alloc; "byte {at}: one worker code {one}, four code {four}");
    harness.tell_made(text);
}
