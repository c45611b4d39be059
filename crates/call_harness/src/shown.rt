//! What is shown of a call.
use crate::Harness;
use crate::bytes::{quoted, text_of, told_bytes, told_digits};
use rho_outside::Shelf;
use std::alloc::AllocError;
use table_lines::LineFault;

/// The most bytes of a file that are shown of a call with given words.
const MOST: u64 = 1_000_000;

/// The most bytes of a file that are shown of a deploy or a replay.
const FEW: u64 = 1000;

/// Of what it is told.
#[derive(Clone, Copy)]
pub enum Of {
    /// A call with given words and files.
    Call,
    /// A deploy or a replay of a given source.
    Run,
}

/// Tells what a call came to, by the names of what is shown, with `+` between them.
pub fn tell_all(harness: &mut Harness, of: Of, names: &str) {
    let count = harness.told_count();
    for name in names.split('+') {
        harness.tell_since(count, " | ");
        let shown = match of {
            Of::Call => of_call(harness, name),
            Of::Run => of_run(harness, name),
        };
        harness.tell_made(shown);
    }
}

// Of a call: its code, its message, what it put, or the bytes of a file.
fn of_call(harness: &mut Harness, name: &str) -> Result<String, AllocError> {
    match name {
        "code" => code(harness),
        "message" => told_bytes(harness.alloc, harness.ended.message.as_slice()),
        "out" => told_bytes(harness.alloc, harness.outside.out.bytes.as_slice()),
        _ => file(harness, name),
    }
}

// Of a run: how it ended, what it put, or one of its files.
fn of_run(harness: &mut Harness, name: &str) -> Result<String, AllocError> {
    match name {
        "status" => String::from_str(harness.alloc, harness.ended.shown.as_str()),
        "code" => code(harness),
        "message" => message(harness),
        "out" => quoted(harness.alloc, harness.outside.out.bytes.as_slice()),
        "log-length" => length(harness, "l"),
        "log" => digits(harness, "l"),
        "next" => digits(harness, "n"),
        "replayed" => digits(harness, "m"),
        _ => no_such(harness),
    }
}

// A name that shows nothing is a fault.
fn no_such(harness: &mut Harness) -> Result<String, AllocError> {
    harness.fail(LineFault::Field);
    Ok(String::new(harness.alloc))
}

fn code(harness: &Harness) -> Result<String, AllocError> {
    let alloc = harness.alloc;
    format!(in alloc; "{}", harness.ended.code)
}

fn message(harness: &Harness) -> Result<String, AllocError> {
    String::from_str(harness.alloc, text_of(harness.ended.message.as_slice()))
}

// The bytes of a file, or that there is none.
fn file(harness: &mut Harness, name: &str) -> Result<String, AllocError> {
    match harness.outside.shelf.fetch(harness.alloc, name, MOST) {
        Ok(bytes) => told_digits(harness.alloc, bytes.as_slice()),
        Err(_) => no_file(harness),
    }
}

// The bytes of a file as hexadecimal digits, or that there is none.
fn digits(harness: &mut Harness, name: &str) -> Result<String, AllocError> {
    match harness.outside.shelf.fetch(harness.alloc, name, FEW) {
        Ok(bytes) => hex::encode(harness.alloc, bytes.as_slice()),
        Err(_) => no_file(harness),
    }
}

fn length(harness: &mut Harness, name: &str) -> Result<String, AllocError> {
    let alloc = harness.alloc;
    match harness.outside.shelf.fetch(alloc, name, FEW) {
        Ok(bytes) => format!(in alloc; "{}", bytes.len()),
        Err(_) => no_file(harness),
    }
}

fn no_file(harness: &Harness) -> Result<String, AllocError> {
    String::from_str(harness.alloc, "no file")
}
