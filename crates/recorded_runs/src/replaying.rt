ghost use Rattle.std.specs.Prelude.{◌≤◌, length, IfOk, IfErr};
ghost use Rattle.calculus.specs.Form.{IsClosed};
ghost use Rattle.sources.specs.Sources.{IsSourceOf};
ghost use Rattle.command_words.specs.Answers.{run_of};
ghost use Rattle.event_log.specs.View.{IsWritable};
ghost use Rattle.run_inputs.specs.Given.{AreReplayAccepted, IsBase};
ghost use Rattle.recorded_runs.specs.ReplayPlans.{IsPlanned, IsReplayPlan, IsReplayStop};
ghost use Rattle.recorded_runs.specs.Replays.{IsReplay};
ghost use Rattle.recorded_runs.specs.Accepted.{HasReplayed};
ghost use Rattle.run_reports.specs.World.{world};

use crate::next::{next_state, printed};
use crate::outcomes::status_after;
use calculus::Digest;
use command_words::Run;
use name_seed::bytes_digest;
use next_states::KnownState;
use numbered_jobs::Crew;
use replay_answers::Replayed;
use replay_runs::replay as replay_log;
use replays::Verdict;
use rho_outside::{Gate, Shelf, Sink};
use run_inputs::{Base, Inputs, ReplayInputs};
use run_reports::{keep_and_put, report};
use run_status::Status;
use std::alloc::{AllocError, Global};
use std::sync::Wait;
use std::thread::Threads;

/// All the bytes that a replay writes, and how its run ended.
#[derive(Drop)]
pub struct ReplayPlan {
    pub next: Vec<u8>,
    /// What is printed, and then the line of the report.
    pub bytes: Vec<u8>,
    /// The line of the report alone.
    pub line: Vec<u8>,
    pub verdict: Verdict,
}

/// Makes all bytes that are to be written of what the replay of a log of so many steps came to, from a state with
/// this root.
pub(crate) fn answer_plan(
    alloc: Global,
    state: KnownState,
    base: &Digest,
    count: u32,
    replayed: Replayed,
) -> Result<ReplayPlan, AllocError>
    ensures { IfOk result (IsPlanned state base.now.0 count replayed) }
{
    let Replayed {
        verdict,
        cost,
        rows,
        output,
    } = replayed;
    let (root, next) = next_state(alloc, verdict, rows, base, state)?;
    let line = report(alloc, verdict, cost, &root, count)?;
    let mut bytes = printed(verdict, output);
    bytes.extend_from_slice(line.as_slice())?;
    Ok(ReplayPlan {
        next,
        bytes,
        line,
        verdict,
    })
}

/// Replays the log from the state by a crew, and makes all bytes that are to be written.
pub fn make_replay_plan<R: Threads + Wait + Sync, G: Gate + Sync>(
    crew: &Crew<R, G>,
    inputs: ReplayInputs,
) -> Result<ReplayPlan, Status>
    requires state { IsBase inputs.inputs.base }
    requires source { IsSourceOf inputs.inputs.source.items inputs.inputs.term }
    requires short { length inputs.inputs.source.items ≤ 1048576 }
    requires closed { IsClosed inputs.inputs.term }
    requires writable { IsWritable inputs.log }
    ensures plan { IfOk result (IsReplayPlan inputs.inputs.base.checkpoint inputs) }
    ensures stop { IfErr result (IsReplayStop inputs.inputs.base.checkpoint inputs) }
{
    let ReplayInputs { inputs, log } = inputs;
    let Inputs {
        base,
        prices,
        source,
        term,
    } = inputs;
    let Base { text, checkpoint } = base;
    let count = log.steps.len() as u32;
    let source = bytes_digest(source.as_slice());
    let root = checkpoint.root();
    let rows = checkpoint.rows();
    let replayed = replay_log(
        crew.rt,
        crew.alloc,
        crew.gate,
        crew.workers,
        rows,
        &root,
        &term,
        &source,
        &prices,
        log,
    )?;
    let state = KnownState::without_rows(text, checkpoint);
    let plan = answer_plan(crew.alloc, state, &root, count, replayed)?;
    Ok(plan)
}

/// Replays the log of accepted inputs by a crew: nothing is kept or put before the replay has ended. Then the next state is kept,
/// and then what is printed is put with the report.
///
/// None of its inputs is refused any more but the log, as no run: else it ends with a verdict, or a write failed, or
/// memory is wanted.
pub fn replay_accepted<R: Threads + Wait + Sync, S: Shelf, O: Sink, G: Gate + Sync>(
    crew: &Crew<R, G>,
    run: &Run,
    inputs: ReplayInputs,
    shelf: &mut S,
    out: &mut O,
) -> Status
    requires inputs { AreReplayAccepted (S.files shelf.now) (run_of run.now) inputs }
    ensures ended { HasReplayed result }
    ensures replay { IsReplay (run_of run.now)
        (world (S.files shelf.old) (S.fetch_faults shelf.old) (S.keep_faults shelf.old) (O.written out.old) (O.faults out.old))
        (world (S.files shelf.new) (S.fetch_faults shelf.new) (S.keep_faults shelf.new) (O.written out.new) (O.faults out.new)) result }
{
    match make_replay_plan(crew, inputs) {
        Ok(plan) => {
            let name = run.next.as_str();
            let next = plan.next.as_slice();
            let bytes = plan.bytes.as_slice();
            let written = keep_and_put(crew.alloc, shelf, out, (name, next), bytes);
            status_after(plan.verdict, written)
        }
        Err(status) => status,
    }
}
