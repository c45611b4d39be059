ghost use Rattle.std.specs.Prelude.{◌≡◌};
ghost use Rattle.command_words.specs.declared.usage.Usage.TheVariants.{NoMemory};

use std::alloc::AllocError;
use thiserror::Error;

/// Why words are refused: their first fault. Or memory ran out.
#[derive(Debug, PartialEq, Eq, Drop, Error)]
pub enum Usage {
    /// The words are no line of a verb, a file and options, each of which has a value and stands once;
    /// or they ask for help.
    #[error("the words are no command")]
    BadWords,
    /// The first word is no verb.
    #[error("there is no verb {verb}")]
    UnknownVerb { verb: String },
    /// The verb, or what the verb needs, is not there: `verb`, `file`, or the word of an option.
    #[error("{what} is missing")]
    Missing { what: String },
    /// What the verb does not take is there: `file`, or the word of an option.
    #[error("{what} is not taken")]
    Surplus { what: String },
    /// The value of an option is no number in its range.
    #[error("{what} is no number in its range")]
    BadNumber { what: String },
    /// The log and the next state are one file.
    #[error("the log and the next state are one file")]
    SameFile,
    #[error("out of memory")]
    NoMemory,
}

impl From<AllocError> for Usage {
    ghost from_gives = { λ _ e. e ≡ NoMemory };

    fn from(_error: AllocError) -> Self {
        Usage::NoMemory
    }
}
