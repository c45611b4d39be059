use hex::FromHexError;
use std::alloc::{AllocError, AllocFailed};
use std::num::ParseIntError;
use thiserror::Error;

/// Why a line has no answer of its kind.
#[derive(Debug, Drop, Error)]
pub enum LineFault {
    /// What the line is about is refused, and so is told.
    #[error("refused: {0}")]
    Refused(String),
    #[error("no kind of that name")]
    Kind,
    #[error("a wrong escape")]
    Escape,
    #[error("a wrong field")]
    Field,
    #[error("out of memory")]
    NoMemory,
}

impl From<AllocError> for LineFault {
    fn from(_error: AllocError) -> Self {
        LineFault::NoMemory
    }
}

impl<T: Drop> From<AllocFailed<T>> for LineFault {
    fn from(_error: AllocFailed<T>) -> Self {
        LineFault::NoMemory
    }
}

impl From<ParseIntError> for LineFault {
    fn from(_error: ParseIntError) -> Self {
        LineFault::Field
    }
}

impl From<FromHexError> for LineFault {
    fn from(error: FromHexError) -> Self {
        match error {
            FromHexError::OutOfMemory => LineFault::NoMemory,
            _ => LineFault::Field,
        }
    }
}
