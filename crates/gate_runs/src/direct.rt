//! Replays that are called directly.
use crate::channels::term_of;
use event_log::read_log;
use event_log::readable_laws::read_logs_are_writable;
use name_seed::bytes_digest;
use numbered_jobs::Crew;
use price_table::Prices;
use replay_runs::{Replayed, replay};
use rho_outside::Gate;
use run_inputs::read_base;
use std::sync::Wait;
use std::thread::Threads;
use table_lines::LineFault;

/// The greatest number of bytes of a source.
const SOURCE_MAX: usize = 1_048_576;

/// Replays by a crew the log of a source from a state, each as the bytes of its file, under the standard prices.
pub fn replayed<R: Threads + Wait + Sync, G: Gate + Sync>(
    crew: &Crew<R, G>,
    state: &[u8],
    source: &[u8],
    log: &[u8],
) -> Result<Replayed, LineFault> {
    let alloc = crew.alloc;
    if source.len() > SOURCE_MAX {
        return Err(LineFault::Field);
    }
    read_logs_are_writable();
    let Ok(log) = read_log(alloc, log) else {
        return Err(LineFault::Field);
    };
    let Ok(term) = term_of(alloc, source) else {
        return Err(LineFault::Field);
    };
    let Ok(checkpoint) = read_base(alloc, state) else {
        return Err(LineFault::Field);
    };
    let digest = bytes_digest(source);
    let root = checkpoint.root();
    let rows = checkpoint.rows();
    match replay(
        crew.rt,
        alloc,
        crew.gate,
        crew.workers,
        rows,
        &root,
        &term,
        &digest,
        &Prices::standard(),
        log,
    ) {
        Ok(replayed) => Ok(replayed),
        Err(_) => Err(LineFault::Field),
    }
}
