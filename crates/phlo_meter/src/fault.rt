ghost use Rattle.std.specs.Prelude.{◌≡◌};
ghost use Rattle.phlo_meter.specs.declared.fault.PriceFault.TheVariants.{NoMemory};

use std::alloc::AllocError;
use thiserror::Error;

/// Why a text gives no prices: its first fault. Or memory ran out.
#[derive(Debug, PartialEq, Eq, Drop, Error)]
pub enum PriceFault {
    /// The text is no TOML table. Bytes that are no UTF-8 are no text.
    #[error("the prices are no TOML table")]
    NotToml,
    /// A price is not there.
    #[error("the price {key} is missing")]
    MissingKey { key: String },
    /// A price is no integer.
    #[error("the price {key} is no integer")]
    NotInteger { key: String },
    /// A price is above 1,000,000, or below 0, or 0 for a step.
    #[error("the price {key} is {value}")]
    OutOfRange { key: String, value: i64 },
    /// A key is that of no price: the least one in bytes.
    #[error("there is no price {key}")]
    UnknownKey { key: String },
    #[error("out of memory")]
    NoMemory,
}

impl From<AllocError> for PriceFault {
    ghost from_gives = { λ _ e. e ≡ NoMemory };

    fn from(_error: AllocError) -> Self {
        PriceFault::NoMemory
    }
}
