//! The program, as the tables of its calls reach it.
use call_harness::{Ended, Meeting, Outside};
use rho_main::{Status, run};
use std::alloc::{AllocError, Global};
use std::sync::Wait;
use std::thread::Threads;

// What a status tells.
fn ended_of(alloc: Global, status: &Status) -> Result<Ended, AllocError> {
    let message = status.message(alloc)?;
    let shown = format!(in alloc; "{status:?}")?;
    Ok(Ended {
        code: status.code(),
        message,
        shown,
    })
}

/// Runs these words with a gate, over files and an output in memory.
pub fn call<R: Threads + Wait + Sync>(
    rt: &R,
    alloc: Global,
    gate: &Meeting,
    words: &[String],
    outside: &mut Outside,
) -> Result<Ended, AllocError> {
    let status = run(rt, alloc, words, &mut outside.shelf, &mut outside.out, gate);
    let status = Box::new(alloc, status)?;
    ended_of(alloc, &status)
}
