ghost use Rattle.std.specs.Prelude.{◌≡◌};
ghost use Rattle.value_ops.specs.declared.stop.OpStop.TheVariants.{Fault, NoMemory};

use calculus::FaultKind;
use std::alloc::{AllocError, AllocFailed};
use thiserror::Error;

/// Why an operator or a method gives no value: its first fault. Or memory ran out.
#[derive(Clone, Copy, Debug, PartialEq, Eq, Drop, Error)]
pub enum OpStop {
    #[error("{0}")]
    Fault(FaultKind),
    #[error("out of memory")]
    NoMemory,
}

impl From<FaultKind> for OpStop {
    ghost from_gives = { λ kind e. e ≡ Fault kind };

    fn from(kind: FaultKind) -> Self {
        OpStop::Fault(kind)
    }
}

impl From<AllocError> for OpStop {
    ghost from_gives = { λ _ e. e ≡ NoMemory };

    fn from(_error: AllocError) -> Self {
        OpStop::NoMemory
    }
}

impl<T: Drop> From<AllocFailed<T>> for OpStop {
    ghost from_gives = { λ _ e. e ≡ NoMemory };

    fn from(_error: AllocFailed<T>) -> Self {
        OpStop::NoMemory
    }
}
