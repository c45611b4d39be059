use std::alloc::{AllocError, AllocFailed};
use thiserror::Error;

/// Why a process has no normal term: the first broken rule of scope in reading order, or want of
/// memory.
#[derive(Debug, Drop, Error, PartialEq, Eq)]
pub enum ScopeFault {
    /// A variable has no binder.
    #[error("Unbound name={name}")]
    Unbound { name: String },
    /// A process variable stands in a name's place.
    #[error("WantsName name={name}")]
    WantsName { name: String },
    /// A name variable stands in a process's place.
    #[error("WantsProcess name={name}")]
    WantsProcess { name: String },
    /// The binds of one receive, one case pattern or one `new` have the name twice.
    #[error("Repeated name={name}")]
    Repeated { name: String },
    /// A closed form in a pattern has a variable that it does not bind.
    #[error("PatternBinder")]
    PatternBinder,
    /// A parallel pattern has more than 8 thin parts or more than one wide part, or a set or map
    /// pattern has more than 8 members beside its remainder.
    #[error("PatternWide")]
    PatternWide,
    /// A pattern variable stands under `~`, under `\/` or inside a bundle of a pattern.
    #[error("UnderNegation name={name}")]
    UnderNegation { name: String },
    /// A declared URI is neither `rho:io:stdout` nor `rho:io:stdoutAck`.
    #[error("UnknownUri uri={uri}")]
    UnknownUri { uri: String },
    /// There was no memory for the term.
    #[error("NoMemory")]
    NoMemory,
}

impl From<AllocError> for ScopeFault {
    ghost use Rattle.std.specs.Prelude.{◌≡◌};
    ghost use Rattle.input_faults.specs.declared.fault.ScopeFault.TheVariants.{NoMemory};

    ghost from_gives = { λ _ e. e ≡ NoMemory };

    fn from(_error: AllocError) -> ScopeFault {
        ScopeFault::NoMemory
    }
}

impl<T: Drop> From<AllocFailed<T>> for ScopeFault {
    ghost use Rattle.std.specs.Prelude.{◌≡◌};
    ghost use Rattle.input_faults.specs.declared.fault.ScopeFault.TheVariants.{NoMemory};

    ghost from_gives = { λ _ e. e ≡ NoMemory };

    fn from(_error: AllocFailed<T>) -> ScopeFault {
        ScopeFault::NoMemory
    }
}
