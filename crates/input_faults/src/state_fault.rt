ghost use Rattle.std.specs.Prelude.{◌≡◌};
ghost use Rattle.input_faults.specs.declared.state_fault.StateFault.TheVariants.{NoMemory};

use calculus::Digest;
use std::alloc::{AllocError, AllocFailed};
use thiserror::Error;

/// Why bytes are no state: the first fault from the left, then a wrong root, then a step that is allowed. Or
/// memory ran out.
#[derive(Debug, Drop, PartialEq, Eq, Error)]
pub enum StateFault {
    /// The bytes end inside the header or inside a row; `at` is their length.
    #[error("the state ends early, at {at}")]
    Short { at: usize },
    /// A wrong byte of the name or the version, the first byte of a row that may not stand there, or the first
    /// byte past the end.
    #[error("no state has what stands at {at}")]
    NotCanonical { at: usize },
    /// The root in the file is not that of its rows.
    #[error("the root is not that of the rows")]
    WrongRoot { stored: Digest, found: Digest },
    /// The rows and the built-in receivers allow a step, of which this is the least: the id of its receiver,
    /// and those of its data.
    #[error("a step is allowed")]
    Reducible { cont: Digest, taken: Vec<Digest> },
    #[error("out of memory")]
    NoMemory,
}

impl From<AllocError> for StateFault {
    ghost from_gives = { λ _ e. e ≡ NoMemory };

    fn from(_error: AllocError) -> Self {
        StateFault::NoMemory
    }
}

impl<T: Drop> From<AllocFailed<T>> for StateFault {
    ghost from_gives = { λ _ e. e ≡ NoMemory };

    fn from(_error: AllocFailed<T>) -> Self {
        StateFault::NoMemory
    }
}
