ghost use Rattle.std.specs.Prelude.{◌≤◌, All, IfOk, length};
ghost use Rattle.calculus.specs.Form.{IsClosed};
ghost use Rattle.calculus.specs.Limits.{most_limit as greatest_limit};
ghost use Rattle.sources.specs.Sources.{IsSourceOf};
ghost use Rattle.command_words.specs.Answers.{run_of};
ghost use Rattle.event_log.specs.View.{TakesInRange};
ghost use Rattle.run_inputs.specs.Given.{task_of, AreAccepted, IsBase};
ghost use Rattle.recorded_runs.specs.Deploys.{IsDeploy};
ghost use Rattle.recorded_runs.specs.Plan.{IsMade, IsPlan};
ghost use Rattle.recorded_runs.specs.Accepted.{HasDeployed};
ghost use Rattle.run_reports.specs.World.{world};

use crate::outcomes::status_after;
use crate::replaying::{ReplayPlan, answer_plan};
use command_words::Run;
use event_log::{Log, LogHeader, steps_are_readable, write_log};
use name_seed::bytes_digest;
use next_states::KnownState;
use numbered_jobs::Crew;
use play_outcome::Played;
use play_runs::play;
use replay_answers::Replayed;
use replays::Verdict;
use rho_outside::{Gate, Shelf, Sink};
use rspace_table::SpaceTables;
use run_inputs::{Base, Inputs};
use run_reports::keep_both_and_put;
use run_status::Status;
use std::alloc::{AllocError, Global};
use std::sync::Wait;
use std::thread::Threads;

/// All the bytes that a deploy writes, and how its run ended.
#[derive(Drop)]
pub struct Plan {
    pub log: Vec<u8>,
    pub next: Vec<u8>,
    /// What is printed, and then the line of the report.
    pub bytes: Vec<u8>,
    pub verdict: Verdict,
}

/// Makes all bytes that are to be written of what was played from a state, with this header of the log: beside the log they
/// are those that a replay of it writes.
fn plan_of(
    alloc: Global,
    state: KnownState,
    header: LogHeader,
    played: Played,
) -> Result<Plan, AllocError>
    requires few { length played.steps.items ≤ 1048608 }
    requires taken { All TakesInRange played.steps.items }
    ensures { IfOk result (IsMade state header played) }
{
    let Played {
        verdict,
        cost,
        steps,
        rows,
        output,
    } = played;
    let count = steps.len() as u32;
    let answer = Replayed {
        verdict,
        cost,
        rows,
        output,
    };
    let ReplayPlan { next, bytes, .. } = answer_plan(alloc, state, &header.base, count, answer)?;
    steps_are_readable(steps.as_slice());
    let log = write_log(alloc, &Log { header, steps })?;
    Ok(Plan {
        log,
        next,
        bytes,
        verdict,
    })
}

/// Runs the source from the state by a crew, and makes all bytes that are to be written.
pub fn make_plan<R: Threads + Wait + Sync, G: Gate + Sync>(
    crew: &Crew<R, G>,
    inputs: Inputs,
    limit: u64,
) -> Result<Plan, AllocError>
    requires limit { limit ≤ greatest_limit inputs.prices }
    requires state { IsBase inputs.base }
    requires source { IsSourceOf inputs.source.items inputs.term }
    requires short { length inputs.source.items ≤ 1048576 }
    requires closed { IsClosed inputs.term }
    ensures { IfOk result (IsPlan limit (task_of inputs)) }
{
    let Inputs {
        base,
        prices,
        source,
        term,
    } = inputs;
    let Base { text, checkpoint } = base;
    let source = bytes_digest(source.as_slice());
    let root = checkpoint.root();
    let (rows, state) = KnownState::of(text, checkpoint);
    let played = play::<R, G, SpaceTables>(
        crew.rt,
        crew.alloc,
        crew.gate,
        crew.workers,
        rows,
        &root,
        &term,
        &source,
        &prices,
        limit,
    )?;
    let header = LogHeader {
        base: root,
        source,
        prices: prices.digest(),
        limit,
    };
    plan_of(crew.alloc, state, header, played)
}

/// Runs the source of accepted inputs by a crew: nothing is kept or put before the run has ended. Then the log is kept, then the
/// next state, and then what is printed is put with the report.
///
/// None of its inputs is refused any more: it ends with a verdict, or a write failed, or memory is wanted.
pub fn deploy_accepted<R: Threads + Wait + Sync, S: Shelf, O: Sink, G: Gate + Sync>(
    crew: &Crew<R, G>,
    run: &Run,
    limit: u64,
    inputs: Inputs,
    shelf: &mut S,
    out: &mut O,
) -> Status
    requires inputs { AreAccepted (S.files shelf.now) (run_of run.now) limit inputs }
    ensures ended { HasDeployed result }
    ensures deploy { IsDeploy (run_of run.now) limit
        (world (S.files shelf.old) (S.fetch_faults shelf.old) (S.keep_faults shelf.old) (O.written out.old) (O.faults out.old))
        (world (S.files shelf.new) (S.fetch_faults shelf.new) (S.keep_faults shelf.new) (O.written out.new) (O.faults out.new)) result }
{
    match make_plan(crew, inputs, limit) {
        Ok(plan) => {
            let log_name = run.log.as_str();
            let next_name = run.next.as_str();
            let log = plan.log.as_slice();
            let next = plan.next.as_slice();
            let bytes = plan.bytes.as_slice();
            let written = keep_both_and_put(
                crew.alloc,
                shelf,
                out,
                (log_name, log),
                (next_name, next),
                bytes,
            );
            status_after(plan.verdict, written)
        }
        Err(_) => Status::NoMemory,
    }
}
