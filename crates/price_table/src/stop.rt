ghost use Rattle.std.specs.Prelude.{◌≡◌};
ghost use Rattle.price_table.specs.declared.stop.EvalStop.TheVariants.{NoMemory};

use calculus::FaultKind;
use std::alloc::{AllocError, AllocFailed};

/// A result, and what was added for it.
#[derive(Drop)]
pub struct Priced<T> {
    pub value: T,
    pub price: u64,
}

/// Why work has no result.
#[derive(Clone, Copy, Debug, PartialEq, Eq, Drop)]
pub enum EvalStop {
    /// The first fault, and what was added up to it.
    Fault { kind: FaultKind, price: u64 },
    /// The price passed the cap.
    Over,
    /// Memory ran out.
    NoMemory,
}

impl From<AllocError> for EvalStop {
    ghost from_gives = { λ _ e. e ≡ NoMemory };

    fn from(_error: AllocError) -> Self {
        EvalStop::NoMemory
    }
}

impl<T: Drop> From<AllocFailed<T>> for EvalStop {
    ghost from_gives = { λ _ e. e ≡ NoMemory };

    fn from(_error: AllocFailed<T>) -> Self {
        EvalStop::NoMemory
    }
}
