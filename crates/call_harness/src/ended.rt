//! How a call of the program ended, without its status, and what it was called over.
use rho_outside::{MemShelf, MemSink};
use std::alloc::{AllocError, Global};

/// How a call of the program ended.
#[derive(Drop)]
pub struct Ended {
    /// The exit status.
    pub code: u8,
    /// The line for standard error, without its line feed; empty where there is none.
    pub message: Vec<u8>,
    /// The status, as `{:?}` writes it.
    pub shown: String,
}

impl Ended {
    /// The end of no call: code 0, and nothing told.
    pub(crate) fn new(alloc: Global) -> Ended {
        Ended {
            code: 0,
            message: Vec::new(alloc),
            shown: String::new(alloc),
        }
    }
}

/// What stands outside a call of the program: files and an output in memory.
#[derive(Drop)]
pub struct Outside {
    pub shelf: MemShelf,
    pub out: MemSink,
}

// The words of a command line, which stand between spaces. An empty text has none.
pub(crate) fn words_of(alloc: Global, text: &str) -> Result<Vec<String>, AllocError> {
    let mut words = Vec::new(alloc);
    for word in text.split(' ') {
        if !word.is_empty() {
            words.push(String::from_str(alloc, word)?)?;
        }
    }
    Ok(words)
}
