//! Answers about calls of `rho` over files in memory: a line is a kind and its fields, or what is shown of a call, with its words and
//! files. What the words of a command line and a text of prices are read as. What deploys come to beside their replays, of lines by
//! several workers, and of the examples. The program itself stands above: who asks for an answer gives what runs it.
#![tactic(auto)]

mod calls;
mod examples;
mod prices;
mod races;
mod runs;
mod words;

use call_harness::{Ended, Meeting, Outside};
pub use examples::told;
pub use races::paired;
use std::alloc::{AllocError, Global};
use table_lines::{LineFault, unescape};

/// The answer to a line about a call, of this kind with these fields. Names with `+` between them begin a call.
fn answer_call<F: Fn(&Meeting, &[String], &mut Outside) -> Result<Ended, AllocError>>(
    run: &F,
    alloc: Global,
    word: &str,
    fields: &str,
) -> Result<String, LineFault>
    requires { F.IsAlwaysCallable run.now }
{
    if word.contains('+') {
        return calls::answer(run, alloc, word, fields);
    }
    runs::answer(run, alloc, word, fields)
}

/// The answer to a line of this kind with these fields.
pub fn answer<F: Fn(&Meeting, &[String], &mut Outside) -> Result<Ended, AllocError>>(
    run: &F,
    alloc: Global,
    word: &str,
    fields: &str,
) -> Result<String, LineFault>
    requires { F.IsAlwaysCallable run.now }
{
    match word {
        "words" => words::asked(alloc, fields),
        "prices" => prices::prices(alloc, unescape(alloc, fields)?.as_slice()),
        "standard-prices" => prices::standard_prices(alloc),
        _ => answer_call(run, alloc, word, fields),
    }
}
