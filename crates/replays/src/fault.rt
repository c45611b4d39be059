ghost use Rattle.std.specs.Prelude.{◌≡◌};
ghost use Rattle.replays.specs.declared.fault.ReplayFault.TheVariants.{NoMemory};

use calculus::Digest;
use std::alloc::{AllocError, AllocFailed};

/// Why a log is refused. Or memory ran out.
#[derive(Debug, Drop, PartialEq, Eq)]
pub enum ReplayFault {
    /// The log names another base than this state's root.
    WrongBase { log: Digest, state: Digest },
    /// The log names another source than the given one.
    WrongSource { log: Digest, given: Digest },
    /// The log names other prices than the given ones.
    WrongPrices { log: Digest, given: Digest },
    /// The log's limit is 0, or above the most that the prices allow.
    WrongLimit { log: u64, most: u64 },
    /// The log's steps are legal up to this one, which is not. Steps are counted from 0.
    NoRun { step: u32 },
    /// After the log's steps one is still allowed, of which this one is the least.
    Reducible { cont: Digest, taken: Vec<Digest> },
    NoMemory,
}

impl From<AllocError> for ReplayFault {
    ghost from_gives = { λ _ e. e ≡ NoMemory };

    fn from(_error: AllocError) -> Self {
        ReplayFault::NoMemory
    }
}

impl<T: Drop> From<AllocFailed<T>> for ReplayFault {
    ghost from_gives = { λ _ e. e ≡ NoMemory };

    fn from(_error: AllocFailed<T>) -> Self {
        ReplayFault::NoMemory
    }
}
