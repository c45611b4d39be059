//! What calls come to.
use crate::Harness;
use crate::ended::{Ended, Outside};
use crate::meeting::Meeting;
use rho_outside::Shelf;
use std::alloc::{AllocError, Global};
use std::mem;

/// The greatest file that is read here.
pub const MOST_BYTES: u64 = 1_000_000;

/// What a call came to: the code and the message of its status, what it put, and the next state that it kept.
#[derive(Drop)]
pub struct Told {
    pub code: u8,
    pub message: Vec<u8>,
    pub report: Vec<u8>,
    pub next: Vec<u8>,
}

impl Told {
    /// Whether both came to the same.
    pub fn agrees(&self, other: &Told) -> bool {
        self.code == other.code
            && self.message == other.message
            && self.report == other.report
            && self.next == other.next
    }
}

/// The bytes of a file; none where there is no such file.
pub fn file(harness: &mut Harness, name: &str) -> Vec<u8> {
    match harness.outside.shelf.fetch(harness.alloc, name, MOST_BYTES) {
        Ok(bytes) => bytes,
        Err(_) => Vec::new(harness.alloc),
    }
}

/// Runs the words of a text, and tells what they came to, with the next state of this name, of which nothing is there before.
pub fn call<F: Fn(&Meeting, &[String], &mut Outside) -> Result<Ended, AllocError>>(
    run: &F,
    harness: &mut Harness,
    text: Result<String, AllocError>,
    next: &str,
) -> Told
    requires { F.IsAlwaysCallable run.now }
{
    harness.keep(next, b"");
    harness.clear_output();
    harness.call_made(run, text);
    Told {
        code: harness.ended.code,
        message: taken(harness.alloc, &mut harness.ended.message),
        report: taken(harness.alloc, &mut harness.outside.out.bytes),
        next: file(harness, next),
    }
}

// These bytes, of which none are left there.
fn taken(alloc: Global, bytes: &mut Vec<u8>) -> Vec<u8> {
    mem::replace(bytes, Vec::new(alloc))
}
