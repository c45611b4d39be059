use thiserror::Error;

/// Why tokens spell no process of a height of at most 200. A place is that of the first byte of a token.
#[derive(Clone, Copy, Debug, PartialEq, Eq, Error)]
pub enum ParseFault {
    /// The tokens before the one at this place begin a text within the height, but with it they begin
    /// none of any height.
    #[error("Syntax at={at}")]
    Syntax { at: usize },
    /// The tokens before the one at this place begin a text within the height, but with it they begin
    /// only higher ones.
    #[error("TooDeep at={at}")]
    TooDeep { at: usize },
    /// There was no memory for the process.
    #[error("NoMemory")]
    NoMemory,
}
