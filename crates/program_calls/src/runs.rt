//! Deploys and replays of given sources. The state is `s`, the prices `p`, the source `d`, the log `l`, and the next states
//! are `n` of a deploy and `m` of a replay.
use call_harness::{Ended, Harness, Meeting, Of, Outside, tell_all};
use std::alloc::{AllocError, Global};
use table_lines::{LineFault, hex_bytes, number};

/// A state without rows: its name, the version, a root of zeros and a number of rows.
const EMPTY: &str = "RHOSTATE\\x01⟦40|\\x00⟧";

const PRICES: &str =
    "comm = 10\\nsend = 3\\nreceive = 4\\nname = 2\\ncase = 1\\nop = 1\\nbyte = 0\\n";

/// The answer to a line of this kind with these fields.
pub fn answer<F: Fn(&Meeting, &[String], &mut Outside) -> Result<Ended, AllocError>>(
    run: &F,
    alloc: Global,
    word: &str,
    fields: &str,
) -> Result<String, LineFault>
    requires { F.IsAlwaysCallable run.now }
{
    let mut harness = Harness::new(alloc);
    match word {
        "deploy" => deploy(run, &mut harness, fields),
        "deploy-of" => deploy_of(run, &mut harness, fields),
        "deploy-failing" => deploy_failing(run, &mut harness, fields),
        "deploy-and-replay" => deploy_and_replay(run, &mut harness, fields),
        "replay" => replay(run, &mut harness, fields),
        "replay-failing" => replay_failing(run, &mut harness, fields),
        _ => harness.fail(LineFault::Kind),
    }
    harness.told()
}

// What stands before the first of these, and what behind it. One is to be there.
fn split<'a>(harness: &mut Harness, fields: &'a str, between: &str) -> (&'a str, &'a str) {
    match fields.split_once(between) {
        Some(split) => split,
        None => {
            harness.fail(LineFault::Field);
            ("", "")
        }
    }
}

// What is shown, one field, and the source.
fn three<'a>(harness: &mut Harness, fields: &'a str) -> (&'a str, &'a str, &'a str) {
    let (shows, fields) = split(harness, fields, " ");
    let (field, source) = split(harness, fields, " ");
    (shows, field, source)
}

// Keeps these inputs, which takes three calls of the files.
fn keep_inputs(harness: &mut Harness, state: &str, prices: &str, source: &str) {
    harness.keep_text("s", state);
    harness.keep_text("p", prices);
    harness.keep_text("d", source);
}

// Deploys the source.
fn run_deploy<F: Fn(&Meeting, &[String], &mut Outside) -> Result<Ended, AllocError>>(
    run: &F,
    harness: &mut Harness,
    limit: &str,
)
    requires { F.IsAlwaysCallable run.now }
{
    let alloc = harness.alloc;
    harness.clear_output();
    let text = format!(in alloc; "deploy d --state s --prices p --limit {limit} --log l --next n");
    harness.call_made(run, text);
}

// Replays the log.
fn run_replay<F: Fn(&Meeting, &[String], &mut Outside) -> Result<Ended, AllocError>>(
    run: &F,
    harness: &mut Harness,
)
    requires { F.IsAlwaysCallable run.now }
{
    harness.clear_output();
    harness.call(run, "replay d --state s --prices p --log l --next m");
}

/// A deploy. The fields are what is shown, the limit and the source.
fn deploy<F: Fn(&Meeting, &[String], &mut Outside) -> Result<Ended, AllocError>>(
    run: &F,
    harness: &mut Harness,
    fields: &str,
)
    requires { F.IsAlwaysCallable run.now }
{
    let (shows, limit, source) = three(harness, fields);
    keep_inputs(harness, EMPTY, PRICES, source);
    run_deploy(run, harness, limit);
    tell_all(harness, Of::Run, shows);
}

/// A deploy of given inputs. The fields are what is shown, and then with `<>` between them the state, the prices, the
/// limit and the source.
fn deploy_of<F: Fn(&Meeting, &[String], &mut Outside) -> Result<Ended, AllocError>>(
    run: &F,
    harness: &mut Harness,
    fields: &str,
)
    requires { F.IsAlwaysCallable run.now }
{
    let (shows, fields) = split(harness, fields, " ");
    let (state, fields) = split(harness, fields, " <> ");
    let (prices, fields) = split(harness, fields, " <> ");
    let (limit, source) = split(harness, fields, " <> ");
    keep_inputs(harness, state, prices, source);
    run_deploy(run, harness, limit);
    tell_all(harness, Of::Run, shows);
}

/// A deploy of which one call of the shelf fails. The fields are its number, what is shown, the limit and the source.
fn deploy_failing<F: Fn(&Meeting, &[String], &mut Outside) -> Result<Ended, AllocError>>(
    run: &F,
    harness: &mut Harness,
    fields: &str,
)
    requires { F.IsAlwaysCallable run.now }
{
    let (call, fields) = split(harness, fields, " ");
    let (shows, limit, source) = three(harness, fields);
    keep_inputs(harness, EMPTY, PRICES, source);
    fail_file(harness, call);
    run_deploy(run, harness, limit);
    tell_all(harness, Of::Run, shows);
}

// The call with this number fails, in decimal digits.
fn fail_file(harness: &mut Harness, call: &str) {
    match number(call) {
        Ok(call) => harness.fail_file(u64::from(call)),
        Err(fault) => harness.fail(fault),
    }
}

/// A deploy and the replay of its log. The fields are what is shown of the replay, the limit and the source. The status of
/// the deploy stands first.
fn deploy_and_replay<F: Fn(&Meeting, &[String], &mut Outside) -> Result<Ended, AllocError>>(
    run: &F,
    harness: &mut Harness,
    fields: &str,
)
    requires { F.IsAlwaysCallable run.now }
{
    let (shows, limit, source) = three(harness, fields);
    keep_inputs(harness, EMPTY, PRICES, source);
    run_deploy(run, harness, limit);
    tell_status(harness);
    run_replay(run, harness);
    tell_all(harness, Of::Run, shows);
}

// The status, and that something follows.
fn tell_status(harness: &mut Harness) {
    let alloc = harness.alloc;
    let status = format!(in alloc; "{}, then ", harness.ended.shown);
    harness.tell_made(status);
}

// Keeps the inputs of a replay, the log as these digits, which takes four calls of the files.
fn keep_with_log(harness: &mut Harness, log: &str, source: &str) {
    keep_inputs(harness, EMPTY, PRICES, source);
    let log = hex_bytes(harness.alloc, log);
    harness.keep_read("l", log);
}

/// A replay. The fields are what is shown, the digits of the log, and the source.
fn replay<F: Fn(&Meeting, &[String], &mut Outside) -> Result<Ended, AllocError>>(
    run: &F,
    harness: &mut Harness,
    fields: &str,
)
    requires { F.IsAlwaysCallable run.now }
{
    let (shows, log, source) = three(harness, fields);
    keep_with_log(harness, log, source);
    run_replay(run, harness);
    tell_all(harness, Of::Run, shows);
}

/// A replay of which one call of the shelf fails. The fields are its number, what is shown, the digits of the log, and the
/// source.
fn replay_failing<F: Fn(&Meeting, &[String], &mut Outside) -> Result<Ended, AllocError>>(
    run: &F,
    harness: &mut Harness,
    fields: &str,
)
    requires { F.IsAlwaysCallable run.now }
{
    let (call, fields) = split(harness, fields, " ");
    let (shows, log, source) = three(harness, fields);
    keep_with_log(harness, log, source);
    fail_file(harness, call);
    run_replay(run, harness);
    tell_all(harness, Of::Run, shows);
}
