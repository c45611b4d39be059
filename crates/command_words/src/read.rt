ghost use Rattle.std.specs.Prelude.{◌≡◌, IfOk, true, map, string_bytes};
ghost use Rattle.command_words.specs.Answers.{Answers, GivesAs, answer_of, given_in, request_of, run_of};
ghost use Rattle.command_words.specs.Commands.{asked, asked_of, deploy_asked, replay_asked, run_asked, text, unless_same, verb_asked, workers_in, workload_asked};
ghost use Rattle.command_words.specs.Faults.{Finds, FindsAs};
ghost use Rattle.command_words.specs.Plain.{Line, given_by, is_plain, words_of};
ghost use Rattle.command_words.specs.declared.argument.Argument.TheVariants as argument;

use crate::argument::Argument;
use crate::command::{Command, Run, Verb, Workload};
use crate::fault::{Fault, usage_of};
use crate::matches::{first_missing, first_there, matches_of, text, text_of};
use crate::number::{number, number_between};
use crate::usage::Usage;
use clap::ArgMatches;
use std::alloc::{AllocError, Global};

/// What the words of a command line ask for. The first word is the verb, and not the program's name.
///
/// Words are read by `clap`: a verb and a file by their places, and seven options, each with a value and
/// at most once. `BadWords` comes exactly where `clap` has no matches for them, as where they ask for
/// help. Over its matches the first fault is answered, in this order: that the verb is missing; that it is
/// unknown; that what it needs is missing; that what it does not take is there; that a number is none, or
/// out of its range; that the log and the next state are one file. Within each the order is that of
/// [`Argument`]. Or memory ran out.
///
/// Plain words are a verb, then a file or none, and then options, each followed by its value, where no
/// option stands twice and no other word begins with a hyphen. For these `BadWords` never comes, and the
/// answer follows from the words alone.
pub fn read_command(alloc: Global, words: &[String]) -> Result<Command, Usage>
    ensures exact { Answers result (answer_of (map string_bytes words.now)) }
    ensures plain { (line : Line) → is_plain line ≡ true → map string_bytes words.now ≡ words_of line
        → GivesAs request_of result (asked (given_by line)) }
{
    let matches = matches_of(alloc, words)?;
    command_of(alloc, &matches)
}

// What the matches ask for.
fn command_of(alloc: Global, matches: &ArgMatches<'_>) -> Result<Command, Usage>
    ensures { GivesAs request_of result (asked (given_in matches.now)) }
{
    match asked(alloc, matches) {
        Ok(command) => Ok(command),
        Err(fault) => Err(usage_of(alloc, fault)?),
    }
}

// What the matches ask for, or their first fault.
fn asked<'a>(alloc: Global, matches: &ArgMatches<'a>) -> Result<Command, Fault<'a>>
    ensures { FindsAs request_of result (asked (given_in matches.now)) }
{
    let verb = verb_of(matches)?;
    if let Some(what) = first_missing(matches, verb.needed()) {
        return Err(Fault::Missing { what });
    }
    if let Some(what) = first_there(matches, verb.untaken()) {
        return Err(Fault::Surplus { what });
    }
    asked_of(alloc, matches, verb)
}

fn verb_of<'a>(matches: &ArgMatches<'a>) -> Result<Verb, Fault<'a>>
    ensures { Finds result (verb_asked (given_in matches.now argument.Verb)) }
{
    match text_of(matches, Argument::Verb) {
        Some(name) => Verb::from_name(name).ok_or(Fault::UnknownVerb { verb: name }),
        None => Err(Fault::Missing {
            what: Argument::Verb,
        }),
    }
}

fn asked_of<'a>(alloc: Global, matches: &ArgMatches<'a>, verb: Verb) -> Result<Command, Fault<'a>>
    ensures { FindsAs request_of result (asked_of verb (given_in matches.now)) }
{
    match verb {
        Verb::Genesis => Ok(Command::Genesis {
            file: copy(alloc, matches, Argument::File)?,
        }),
        Verb::Deploy => deploy(alloc, matches),
        Verb::Replay => replay(alloc, matches),
        Verb::Inspect => Ok(Command::Inspect {
            file: copy(alloc, matches, Argument::File)?,
        }),
        Verb::Workload => workload(alloc, matches),
    }
}

fn deploy<'a>(alloc: Global, matches: &ArgMatches<'a>) -> Result<Command, Fault<'a>>
    ensures { FindsAs request_of result (deploy_asked (given_in matches.now)) }
{
    let limit = number(Argument::Limit, text(matches, Argument::Limit))?;
    let run = run(alloc, matches)?;
    Ok(Command::Deploy { run, limit })
}

fn replay<'a>(alloc: Global, matches: &ArgMatches<'a>) -> Result<Command, Fault<'a>>
    ensures { FindsAs request_of result (replay_asked (given_in matches.now)) }
{
    let run = run(alloc, matches)?;
    Ok(Command::Replay(run))
}

// The run that a deploy or a replay asks for.
fn run<'a>(alloc: Global, matches: &ArgMatches<'a>) -> Result<Run, Fault<'a>>
    ensures { FindsAs run_of result (run_asked (given_in matches.now)) }
{
    let workers = workers(matches)?;
    unless_same(text(matches, Argument::Log), text(matches, Argument::Next))?;
    Ok(Run {
        file: copy(alloc, matches, Argument::File)?,
        state: copy(alloc, matches, Argument::State)?,
        prices: copy(alloc, matches, Argument::Prices)?,
        log: copy(alloc, matches, Argument::Log)?,
        next: copy(alloc, matches, Argument::Next)?,
        workers,
    })
}

fn workload<'a>(alloc: Global, matches: &ArgMatches<'a>) -> Result<Command, Fault<'a>>
    ensures { FindsAs request_of result (workload_asked (given_in matches.now)) }
{
    let workers = workers(matches)?;
    let steps = number_between(Argument::Steps, 4, 200_000, text(matches, Argument::Steps))?;
    Ok(Command::Workload(Workload {
        log: copy(alloc, matches, Argument::Log)?,
        workers,
        steps,
    }))
}

// How many workers run: 4 where that is not said.
fn workers<'a>(matches: &ArgMatches<'a>) -> Result<u32, Fault<'a>>
    ensures { Finds result (workers_in (given_in matches.now argument.Workers)) }
{
    match text_of(matches, Argument::Workers) {
        Some(text) => number_between(Argument::Workers, 1, 32, text),
        None => Ok(4),
    }
}

// Two names that may not be the same.
fn unless_same<'a>(log: &str, next: &str) -> Result<(), Fault<'a>>
    ensures { Finds result (unless_same log.now next.now) }
{
    if log == next {
        return Err(Fault::SameFile);
    }
    Ok(())
}

fn copy(alloc: Global, matches: &ArgMatches<'_>, argument: Argument) -> Result<String, AllocError>
    ensures { IfOk result (λ s. string_bytes s ≡ text (given_in matches.now) argument) }
{
    String::from_str(alloc, text(matches, argument))
}
