//! Tokens, and why a text has none.
ghost use Rattle.rho_lexer.specs.declared.token.LexFault.TheVariants.{NoMemory};
ghost use Rattle.std.specs.Prelude.{◌≡◌};

use std::alloc::{AllocError, AllocFailed};

/// What a token is. A `Word`, `Key` or `Sign` holds its text, an `Int` its value, of at most 2^63, a
/// `Str` its characters with each escape replaced, a `Uri` the characters between its back quotes.
/// `End` is the text's end.
#[derive(Debug, PartialEq, Eq, Drop)]
pub enum TokenKind {
    Word(String),
    Key(String),
    Sign(String),
    Int(u64),
    Str(String),
    Uri(String),
    End,
}

/// A token, with the offset in bytes of its first byte and the offset after its last one.
#[derive(Debug, PartialEq, Eq, Drop)]
pub struct Token {
    pub kind: TokenKind,
    pub start: usize,
    pub end: usize,
}

/// Why a text has no tokens, with the offset in bytes of the first place at which it has none: a byte
/// that begins no token or that no string may hold there, a string or Uri that isn't closed, at its
/// opening mark, a comment that isn't closed, an integer above 2^63. Or memory ran out.
#[derive(Clone, Copy, Debug, PartialEq, Eq)]
pub enum LexFault {
    BadByte { at: usize },
    OpenString { at: usize },
    OpenComment { at: usize },
    LiteralTooLarge { at: usize },
    NoMemory,
}

impl From<AllocError> for LexFault {
    ghost from_gives = { λ _ e. e ≡ NoMemory };

    fn from(_error: AllocError) -> Self {
        LexFault::NoMemory
    }
}

impl<T: Drop> From<AllocFailed<T>> for LexFault {
    ghost from_gives = { λ _ e. e ≡ NoMemory };

    fn from(_error: AllocFailed<T>) -> Self {
        LexFault::NoMemory
    }
}
