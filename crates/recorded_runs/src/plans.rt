ghost use Rattle.std.specs.Prelude.{◌≡◌, ◌≤◌, Ok, IfOk, IfErr, map};
ghost use Rattle.std.specs.Result.{IsOk};
ghost use Rattle.event_log.specs.Reading.{log_of};
ghost use Rattle.event_log.specs.View.{header_of, step_of, IsWritable};
ghost use Rattle.recorded_runs.specs.Made.{made_task};
ghost use Rattle.recorded_runs.specs.WorkloadPlan.{IsMadeReplay, IsPlayed, IsReplayed, IsStop, IsWork};
ghost use Rattle.recorded_runs.specs.Workloads.{RefusedFor};

use crate::inputs::made_inputs;
use crate::{Plan, ReplayPlan, make_plan, make_replay_plan};
use event_log::readable_laws::read_logs_are_writable;
use event_log::{Log, LogFault, read_log};
use numbered_jobs::Crew;
use replays::Verdict;
use rho_outside::Gate;
use run_inputs::ReplayInputs;
use run_status::Status;
use std::alloc::{AllocError, Global};
use std::sync::Wait;
use std::thread::Threads;

/// What the made input may cost.
const LIMIT: u64 = 10_485_760;

/// All the bytes that a workload writes, and how its replay ended.
#[derive(Drop)]
pub(crate) struct Work {
    pub(crate) log: Vec<u8>,
    /// The line of the report.
    pub(crate) line: Vec<u8>,
    pub(crate) verdict: Verdict,
}

/// Plays the made input of so many steps from the empty state.
fn play_made<R: Threads + Wait + Sync, G: Gate + Sync>(
    crew: &Crew<R, G>,
    steps: u32,
) -> Result<Plan, AllocError>
    ensures { IfOk result (λ plan. IsPlayed steps plan.log.items) }
{
    let inputs = made_inputs(crew.alloc, steps)?;
    make_plan(crew, inputs, LIMIT)
}

/// The error of a fault of the log of a text that is one: memory is wanted.
fn log_memory_error(_fault: LogFault) -> AllocError
    requires { _fault ≡ LogFault.NoMemory }
{
    AllocError
}

/// The log of a text that is one.
fn read_played(alloc: Global, text: &[u8]) -> Result<Log, AllocError>
    requires { IsOk (log_of text.now) }
    ensures read { IfOk result (λ log. log_of text.now ≡ Ok (header_of log.header, map step_of log.steps.items)) }
    ensures writable { IfOk result IsWritable }
{
    read_logs_are_writable();
    match read_log(alloc, text) {
        Ok(log) => Ok(log),
        Err(fault) => Err(log_memory_error(fault)),
    }
}

/// The made input of so many steps, and the log of this text.
fn made_replay(alloc: Global, steps: u32, text: &[u8]) -> Result<ReplayInputs, AllocError>
    requires { IsOk (log_of text.now) }
    ensures { IfOk result (IsMadeReplay steps text.now) }
{
    let log = read_played(alloc, text)?;
    let inputs = made_inputs(alloc, steps)?;
    Ok(ReplayInputs { inputs, log })
}

/// Replays the log of this text with the made input of so many steps, from the empty state.
fn replay_made<R: Threads + Wait + Sync, G: Gate + Sync>(
    crew: &Crew<R, G>,
    steps: u32,
    text: &[u8],
) -> Result<ReplayPlan, Status>
    requires log { IsOk (log_of text.now) }
    ensures plan { IfOk result (IsReplayed (made_task steps, text.now)) }
    ensures stop { IfErr result (IsStop (made_task steps, text.now)) }
{
    let inputs = made_replay(crew.alloc, steps, text)?;
    make_replay_plan(crew, inputs)
}

/// Plays the made input of so many steps, replays the log of the play, and makes all bytes that are to be written.
pub(crate) fn make_work<R: Threads + Wait + Sync, G: Gate + Sync>(
    crew: &Crew<R, G>,
    steps: u32,
) -> Result<Work, Status>
    ensures work { IfOk result (IsWork steps) }
    ensures stop { IfErr result (RefusedFor steps) }
{
    let Plan { log, .. } = play_made(crew, steps)?;
    let ReplayPlan { line, verdict, .. } = replay_made(crew, steps, log.as_slice())?;
    Ok(Work { log, line, verdict })
}
