ghost use Rattle.std.specs.Prelude.{◌≡◌, map, string_bytes};
ghost use Rattle.command_words.specs.Answers.{answer_of};
ghost use Rattle.run_status.specs.Endings.{OnUsage, SaysUsage};
ghost use Rattle.rho_main.specs.Calls.{IsCall};
ghost use Rattle.rho_main.specs.Words.{IsRefusal, IsSaidBy, OnDeploy, OnGenesis, OnInspect, OnReplay, OnWorkload};
ghost use Rattle.recorded_runs.specs.Deploys.{IsDeploy};
ghost use Rattle.run_inspects.specs.Genesis.{IsGenesis};
ghost use Rattle.run_inspects.specs.Inspects.{IsInspect};
ghost use Rattle.recorded_runs.specs.Replays.{IsReplay};
ghost use Rattle.run_reports.specs.World.{world};
ghost use Rattle.recorded_runs.specs.Workloads.{IsWorkload};

use crate::accepting::{Accepted, accept};
use command_words::Run;
use numbered_jobs::Crew;
use recorded_runs::{deploy_accepted, replay_accepted, worker_count, workload};
use rho_outside::{Gate, Shelf, Sink};
use run_status::Status;
use std::alloc::Global;
use std::sync::Wait;
use std::thread::Threads;

// The crew of a run, of as many workers as its words name.
fn crew_of<'a, R, G>(rt: &'a R, alloc: Global, gate: &'a G, run: &Run) -> Crew<'a, R, G> {
    Crew {
        rt,
        alloc,
        gate,
        workers: worker_count(run.workers),
    }
}

/// Does what the words of a command line ask, as `run` does.
fn run_words<R: Threads + Wait + Sync, S: Shelf, O: Sink, G: Gate + Sync>(
    rt: &R,
    alloc: Global,
    words: &[String],
    shelf: &mut S,
    out: &mut O,
    gate: &G,
) -> Status
    ensures { IsCall (map string_bytes words.now)
        (world (S.files shelf.old) (S.fetch_faults shelf.old) (S.keep_faults shelf.old) (O.written out.old) (O.faults out.old))
        (world (S.files shelf.new) (S.fetch_faults shelf.new) (S.keep_faults shelf.new) (O.written out.new) (O.faults out.new)) result }
{
    match accept(alloc, words, shelf, out) {
        Accepted::Ended(status) => status,
        Accepted::Deploy { run, limit, inputs } => {
            let crew = crew_of(rt, alloc, gate, &run);
            deploy_accepted(&crew, &run, limit, inputs, shelf, out)
        }
        Accepted::Replay { run, inputs } => {
            let crew = crew_of(rt, alloc, gate, &run);
            replay_accepted(&crew, &run, inputs, shelf, out)
        }
        Accepted::Workload(request) => workload(rt, alloc, &request, shelf, out, gate),
    }
}

/// Does what the words of a command line ask, over the files of a shelf and an output.
///
/// Nothing is kept or put before all inputs were accepted and the run has ended. A refusal leaves the files
/// and the output as they were. Then the log is kept, then the next state, then what the run printed is put
/// with the report behind it. A replay keeps no log, and the showing of a state keeps nothing.
pub fn run<R: Threads + Wait + Sync, S: Shelf, O: Sink, G: Gate + Sync>(
    rt: &R,
    alloc: Global,
    words: &[String],
    shelf: &mut S,
    out: &mut O,
    gate: &G,
) -> Status
    // The words.
    ensures usage { OnUsage result (IsSaidBy (answer_of (map string_bytes words.now))) }
    ensures usage_exact { IsRefusal (answer_of (map string_bytes words.now)) → SaysUsage result }
    ensures usage_stays { IsRefusal (answer_of (map string_bytes words.now)) → (S.files shelf.new ≡ S.files shelf.old) ×
        (O.written out.new ≡ O.written out.old) }

    // The verbs, each from what the shelf and the output tell before the call to what they tell after it.
    ensures genesis { OnGenesis (map string_bytes words.now) (λ name. IsGenesis name
        (world (S.files shelf.old) (S.fetch_faults shelf.old) (S.keep_faults shelf.old) (O.written out.old) (O.faults out.old))
        (world (S.files shelf.new) (S.fetch_faults shelf.new) (S.keep_faults shelf.new) (O.written out.new) (O.faults out.new)) result) }
    ensures deploy { OnDeploy (map string_bytes words.now) (λ names limit. IsDeploy names limit
        (world (S.files shelf.old) (S.fetch_faults shelf.old) (S.keep_faults shelf.old) (O.written out.old) (O.faults out.old))
        (world (S.files shelf.new) (S.fetch_faults shelf.new) (S.keep_faults shelf.new) (O.written out.new) (O.faults out.new)) result) }
    ensures replay { OnReplay (map string_bytes words.now) (λ names. IsReplay names
        (world (S.files shelf.old) (S.fetch_faults shelf.old) (S.keep_faults shelf.old) (O.written out.old) (O.faults out.old))
        (world (S.files shelf.new) (S.fetch_faults shelf.new) (S.keep_faults shelf.new) (O.written out.new) (O.faults out.new)) result) }
    ensures inspect { OnInspect (map string_bytes words.now) (λ name. IsInspect name
        (world (S.files shelf.old) (S.fetch_faults shelf.old) (S.keep_faults shelf.old) (O.written out.old) (O.faults out.old))
        (world (S.files shelf.new) (S.fetch_faults shelf.new) (S.keep_faults shelf.new) (O.written out.new) (O.faults out.new)) result) }
    ensures workload { OnWorkload (map string_bytes words.now) (λ request. IsWorkload request.steps request.log
        (world (S.files shelf.old) (S.fetch_faults shelf.old) (S.keep_faults shelf.old) (O.written out.old) (O.faults out.old))
        (world (S.files shelf.new) (S.fetch_faults shelf.new) (S.keep_faults shelf.new) (O.written out.new) (O.faults out.new)) result) }
{
    run_words(rt, alloc, words, shelf, out, gate)
}
