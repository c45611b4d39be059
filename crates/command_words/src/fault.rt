// The first fault of words, before memory is taken to tell it.
ghost use Rattle.std.specs.Prelude.{◌≡◌, IfOk, Result};
ghost use Rattle.command_words.specs.Answers.{Refuses};
ghost use Rattle.command_words.specs.Commands.{Refusal, Request};
ghost use Rattle.command_words.specs.Faults.{Tells};
ghost use Rattle.command_words.specs.declared.fault.Fault.TheVariants.{NoMemory};

use crate::argument::Argument;
use crate::usage::Usage;
use std::alloc::{AllocError, Global};

// Why words that `clap` takes are refused. Or memory ran out.
#[derive(Clone, Copy)]
pub(crate) enum Fault<'a> {
    UnknownVerb { verb: &'a str },
    Missing { what: Argument },
    Surplus { what: Argument },
    BadNumber { what: Argument },
    SameFile,
    NoMemory,
}

impl From<AllocError> for Fault<'_> {
    ghost from_gives = { λ _ e. e ≡ NoMemory };

    fn from(_error: AllocError) -> Self {
        Fault::NoMemory
    }
}

// What a fault tells, in a text of its own.
pub(crate) fn usage_of(alloc: Global, fault: Fault<'_>) -> Result<Usage, AllocError>
    ensures { IfOk result (λ usage. (said : Result Request Refusal) → Tells fault.entry said → Refuses usage said) }
{
    match fault {
        Fault::UnknownVerb { verb } => Ok(Usage::UnknownVerb {
            verb: String::from_str(alloc, verb)?,
        }),
        Fault::Missing { what } => Ok(Usage::Missing {
            what: String::from_str(alloc, what.name())?,
        }),
        Fault::Surplus { what } => Ok(Usage::Surplus {
            what: String::from_str(alloc, what.name())?,
        }),
        Fault::BadNumber { what } => Ok(Usage::BadNumber {
            what: String::from_str(alloc, what.name())?,
        }),
        Fault::SameFile => Ok(Usage::SameFile),
        Fault::NoMemory => Ok(Usage::NoMemory),
    }
}
