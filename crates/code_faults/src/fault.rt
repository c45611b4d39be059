ghost use Rattle.std.specs.Prelude.{◌≡◌};
ghost use Rattle.code_faults.specs.declared.fault.ReadFault.TheVariants.{NoMemory};

use std::alloc::{AllocError, AllocFailed};
use thiserror::Error;

/// Why bytes are no code of a closed process of height at most 400, with a place in them. Or memory
/// ran out.
#[derive(Clone, Copy, Debug, PartialEq, Eq, Drop, Error)]
pub enum CodeFault {
    /// The bytes end before the code does; `at` is their length.
    #[error("the code ends early, at {at}")]
    Short { at: usize },
    /// No code goes on so at this place.
    #[error("no code has what stands at {at}")]
    NotCanonical { at: usize },
    /// The part whose first byte stands here makes the height pass 400.
    #[error("the code is too deep at {at}")]
    TooDeep { at: usize },
    #[error("out of memory")]
    NoMemory,
}

/// Why a reader of codes stops, with a place that is told by how many bytes stand from there on.
#[derive(Clone, Copy, Debug, PartialEq, Eq, Drop)]
pub enum ReadFault {
    Short { at: usize },
    NotCanonical { at: usize },
    TooDeep { at: usize },
    /// The length of a method's name stands here, and it is 0.
    Unnamed { at: usize },
    NoMemory,
}

impl From<AllocError> for ReadFault {
    ghost from_gives = { λ _ e. e ≡ NoMemory };

    fn from(_error: AllocError) -> Self {
        ReadFault::NoMemory
    }
}

impl<T: Drop> From<AllocFailed<T>> for ReadFault {
    ghost from_gives = { λ _ e. e ≡ NoMemory };

    fn from(_error: AllocFailed<T>) -> Self {
        ReadFault::NoMemory
    }
}
