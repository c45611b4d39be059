//! Plays that are called directly.
use crate::channels::{apart, receives, sends, term_of};
use call_harness::Meeting;
use name_seed::{EMPTY_ROOT, bytes_digest};
use numbered_jobs::Crew;
use play_outcome::Played;
use play_runs::play;
use price_table::Prices;
use rho_outside::{Gate, OpenGate};
use rspace_table::SpaceTables;
use space_row::Row;
use std::alloc::{AllocError, Global};
use std::sync::Wait;
use std::thread::Threads;
use table_lines::LineFault;

// Plays a source by a crew from these rows under the standard prices and a limit of 1,000.
fn played<R: Threads + Wait + Sync, G: Gate + Sync>(
    crew: &Crew<R, G>,
    base: Vec<Row>,
    text: &str,
) -> Result<Played, LineFault> {
    let text = text.as_bytes();
    let term = term_of(crew.alloc, text)?;
    let source = bytes_digest(text);
    let prices = Prices::standard();
    Ok(play::<R, G, SpaceTables>(
        crew.rt,
        crew.alloc,
        crew.gate,
        crew.workers,
        base,
        &EMPTY_ROOT,
        &term,
        &source,
        &prices,
        1000,
    )?)
}

// The rows that eight receives leave.
fn stored<R: Threads + Wait + Sync>(
    rt: &R,
    alloc: Global,
    numbers: &[u32],
) -> Result<Vec<Row>, LineFault> {
    let receives = receives(alloc, numbers)?;
    let crew = Crew {
        rt,
        alloc,
        gate: &OpenGate,
        workers: 1,
    };
    let stored = played(&crew, Vec::new(alloc), receives.as_str())?;
    Ok(stored.rows)
}

// A play of eight sends by two workers, from a state of eight receives, with a gate.
fn meet<R: Threads + Wait + Sync>(
    rt: &R,
    alloc: Global,
    gate: &Meeting,
    numbers: &[u32],
) -> Result<Played, LineFault> {
    let sends = sends(alloc, numbers)?;
    let rows = stored(rt, alloc, numbers)?;
    let crew = Crew {
        rt,
        alloc,
        gate,
        workers: 2,
    };
    played(&crew, rows, sends.as_str())
}

// Whether the workers met, whether the first gave up, and what the play came to.
fn told_end(alloc: Global, outcome: (bool, bool), ended: &Played) -> Result<String, AllocError> {
    let (met, failed) = outcome;
    format!(in alloc;
        "play: met {met}, gave up {failed}, {:?}, {} steps, {} rows\n",
        ended.verdict,
        ended.steps.len(),
        ended.rows.len()
    )
}

/// A play of eight sends by two workers, from a state of eight receives, with a gate at which the workers meet.
pub fn told<R: Threads + Wait + Sync>(rt: &R, alloc: Global) -> Result<String, LineFault> {
    let numbers = apart(alloc)?;
    let gate = Meeting::new();
    let ended = meet(rt, alloc, &gate, numbers.as_slice())?;
    Ok(told_end(alloc, gate.outcome(rt), &ended)?)
}
