// What `clap` reads of words.
ghost use Rattle.std.specs.Prelude.{◌≡◌, ◌⊎◌, IfErr, IfOk, true, false, map, option_map, string_bytes};
ghost use Rattle.clap.specs.Simple.{App, new_rule, with_rule};
ghost use Rattle.command_words.specs.Answers.{given_in};
ghost use Rattle.command_words.specs.Arguments.{Text};
ghost use Rattle.command_words.specs.Clap.{HasApp, has_matches, matched, option_rule, rho};
ghost use Rattle.command_words.specs.Commands.{first_missing, first_there, text};
ghost use Rattle.command_words.specs.declared.argument.Argument.{Argument};
ghost use Rattle.command_words.specs.declared.usage.Usage.TheVariants.{BadWords, NoMemory};

use crate::argument::Argument;
use crate::usage::Usage;
use clap::error::ErrorKind;
use clap::{Arg, ArgMatches, Command};
use std::alloc::{AllocError, Global};

// What `clap` finds in the words, of which the first is no program's name.
pub(crate) fn matches_of<'a>(alloc: Global, words: &'a [String]) -> Result<ArgMatches<'a>, Usage>
    ensures found { IfOk result (λ m. (has_matches (map string_bytes words.now) ≡ true)
        × ((a : Argument) → given_in m a ≡ matched (map string_bytes words.now) a)) }
    ensures refused { IfErr result (λ u. (u ≡ NoMemory) ⊎ ((u ≡ BadWords) × (has_matches (map string_bytes words.now) ≡ false))) }
{
    let command = rho_command(alloc)?;
    match command.try_get_matches_from(words) {
        Ok(matches) => Ok(matches),
        Err(error) => match error.kind() {
            ErrorKind::OutOfMemory => Err(Usage::NoMemory),
            _ => Err(Usage::BadWords),
        },
    }
}

// A verb and a file by their places, and seven options with one value each.
fn rho_command<'a>(alloc: Global) -> Result<Command<'a>, AllocError>
    ensures { HasApp result rho }
{
    let command = Ok(Command::new(alloc, "rho").no_binary_name(true));
    let command = with_place(alloc, command, "verb");
    let command = with_place(alloc, command, "file");
    let command = with_option(alloc, command, "state");
    let command = with_option(alloc, command, "prices");
    let command = with_option(alloc, command, "limit");
    let command = with_option(alloc, command, "log");
    let command = with_option(alloc, command, "next");
    let command = with_option(alloc, command, "workers");
    with_option(alloc, command, "steps")
}

// The command with one more argument by its place, if memory sufficed so far.
fn with_place<'a>(
    alloc: Global,
    command: Result<Command<'a>, AllocError>,
    name: &'a str,
) -> Result<Command<'a>, AllocError>
    ensures { (before : App) → HasApp command.entry before → HasApp result (with_rule before (new_rule name.entry.now)) }
{
    let command = command?;
    command.arg(Arg::new(alloc, name))
}

// The command with one more option, if memory sufficed so far.
fn with_option<'a>(
    alloc: Global,
    command: Result<Command<'a>, AllocError>,
    name: &'a str,
) -> Result<Command<'a>, AllocError>
    ensures { (before : App) → HasApp command.entry before → HasApp result (with_rule before (option_rule name.entry.now)) }
{
    let command = command?;
    command.arg(Arg::new(alloc, name).long(name))
}

// The text of an argument, where it is there.
pub(crate) fn text_of<'a>(matches: &ArgMatches<'a>, argument: Argument) -> Option<&'a str>
    ensures { option_map (λ s. s.now) result ≡ given_in matches.now argument }
{
    matches.get_str(argument.id())
}

// The first of some arguments that is not there.
pub(crate) fn first_missing(matches: &ArgMatches<'_>, needed: &[Argument]) -> Option<Argument>
    ensures { result ≡ first_missing (given_in matches.now) needed.now }
{
    needed
        .iter()
        .copied()
        .find(|argument| text_of(matches, *argument).is_none())
}

// The first of some arguments that is there.
pub(crate) fn first_there(matches: &ArgMatches<'_>, untaken: &[Argument]) -> Option<Argument>
    ensures { result ≡ first_there (given_in matches.now) untaken.now }
{
    untaken
        .iter()
        .copied()
        .find(|argument| text_of(matches, *argument).is_some())
}

// The text of an argument; of one that is not there the empty text.
pub(crate) fn text<'a>(matches: &ArgMatches<'a>, argument: Argument) -> &'a str
    ensures { result.now ≡ text (given_in matches.now) argument }
{
    text_of(matches, argument).unwrap_or("")
}
