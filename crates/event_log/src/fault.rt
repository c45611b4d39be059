ghost use Rattle.std.specs.Prelude.{◌≡◌};
ghost use Rattle.event_log.specs.declared.fault.LogFault.TheVariants.{NoMemory};

use std::alloc::{AllocError, AllocFailed};
use thiserror::Error;

/// Why bytes are no text of a log: the first fault from the left. Or memory ran out.
#[derive(Clone, Copy, Debug, PartialEq, Eq, Drop, Error)]
pub enum LogFault {
    /// The bytes end before a field that must stand there is whole; `at` is their length.
    #[error("the log ends early, at {at}")]
    Short { at: usize },
    /// A wrong byte of the name, a number of data outside 1 to 16, or a byte past the end.
    #[error("the log has a wrong byte at {at}")]
    Bad { at: usize },
    /// The version is another one than 1.
    #[error("the log has the version {found}")]
    Version { found: u8 },
    /// There are more than 1,048,608 steps.
    #[error("the log has {entries} steps")]
    TooLong { entries: u32 },
    #[error("out of memory")]
    NoMemory,
}

impl From<AllocError> for LogFault {
    ghost from_gives = { λ _ e. e ≡ NoMemory };

    fn from(_error: AllocError) -> Self {
        LogFault::NoMemory
    }
}

impl<T: Drop> From<AllocFailed<T>> for LogFault {
    ghost from_gives = { λ _ e. e ≡ NoMemory };

    fn from(_error: AllocFailed<T>) -> Self {
        LogFault::NoMemory
    }
}
