// The inputs of a command line's words, before anything is run.
ghost use Rattle.std.specs.Prelude.{◌≡◌, IfOk, IfErr, Some, Ok, map, string_bytes};
ghost use Rattle.command_words.specs.Answers.{answer_of, request_of};
ghost use Rattle.rho_main.specs.Accepting.{OnEnded, IsAccepting};
ghost use Rattle.rho_main.specs.Calls.{IsCall};
ghost use Rattle.rho_main.specs.Words.{Tells};
ghost use Rattle.run_reports.specs.World.{world};

use command_words::{Command, Run, Usage, Workload, read_command};
use rho_outside::{Shelf, Sink};
use run_inputs::{Inputs, ReplayInputs, accept as accept_inputs, accept_replay};
use run_inspects::{genesis, inspect};
use run_status::Status;
use std::alloc::Global;

/// What `accept` came to: the call has ended, or it goes on with what was accepted, by the verb that the words name.
/// A deploy has a limit, a replay a log, and a workload needs no file.
#[derive(Drop)]
pub enum Accepted {
    Ended(Status),
    Deploy {
        run: Run,
        limit: u64,
        inputs: Inputs,
    },
    Replay {
        run: Run,
        inputs: ReplayInputs,
    },
    Workload(Workload),
}

/// What the words of a command line ask for.
fn read_words(alloc: Global, words: &[String]) -> Result<Command, Usage>
    ensures asked { IfOk result (λ command. answer_of (map string_bytes words.now) ≡ Some (Ok (request_of command))) }
    ensures refused { IfErr result (Tells (answer_of (map string_bytes words.now))) }
{
    match read_command(alloc, words) {
        Ok(command) => Ok(command),
        Err(fault) => Err(fault),
    }
}

/// Does all that `run` does before a source is run or a log replayed, and the whole of a verb that does neither.
///
/// It takes no runtime and waits for nobody. Where it has ended, its status is the one that `run` answers: the
/// words or an input were refused, or memory was wanted, or the empty state was made, or a state was shown, each as
/// far as the files and the output allow. Else nothing was kept or put.
pub fn accept<S: Shelf, O: Sink>(
    alloc: Global,
    words: &[String],
    shelf: &mut S,
    out: &mut O,
) -> Accepted
    ensures ended { OnEnded result (IsCall (map string_bytes words.now)
        (world (S.files shelf.old) (S.fetch_faults shelf.old) (S.keep_faults shelf.old) (O.written out.old) (O.faults out.old))
        (world (S.files shelf.new) (S.fetch_faults shelf.new) (S.keep_faults shelf.new) (O.written out.new) (O.faults out.new))) }
    ensures accepted { IsAccepting (map string_bytes words.now)
        (world (S.files shelf.old) (S.fetch_faults shelf.old) (S.keep_faults shelf.old) (O.written out.old) (O.faults out.old))
        (world (S.files shelf.new) (S.fetch_faults shelf.new) (S.keep_faults shelf.new) (O.written out.new) (O.faults out.new)) result }
{
    match read_words(alloc, words) {
        Ok(Command::Genesis { file }) => {
            Accepted::Ended(genesis(alloc, file.as_str(), shelf, out))
        }
        Ok(Command::Deploy { run, limit }) => match accept_inputs(alloc, shelf, &run, limit) {
            Ok(inputs) => Accepted::Deploy { run, limit, inputs },
            Err(status) => Accepted::Ended(status),
        },
        Ok(Command::Replay(run)) => match accept_replay(alloc, shelf, &run) {
            Ok(inputs) => Accepted::Replay { run, inputs },
            Err(status) => Accepted::Ended(status),
        },
        Ok(Command::Inspect { file }) => {
            Accepted::Ended(inspect(alloc, file.as_str(), shelf, out))
        }
        Ok(Command::Workload(request)) => Accepted::Workload(request),
        Err(Usage::NoMemory) => Accepted::Ended(Status::NoMemory),
        Err(fault) => Accepted::Ended(Status::Usage(fault)),
    }
}
