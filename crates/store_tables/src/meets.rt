//! What is found in large stores.
use crate::store::Store;
use found_rows::Found;
use name_seed::EMPTY_ROOT;
use rho_term::Op;
use rspace_table::SpaceTables;
use shard_tables::ShardTables;
use source_rows::{put_terms, read_rows};
use space_row::Row;
use std::alloc::{AllocError, Global};
use table_lines::{Answer, LineFault, first_field};

/// Stores the receives of a source, and then tells for each of its sends what it meets, or the other way round: `send` or `receive`
/// stands before the source. What is met is left where it is.
pub fn meet(alloc: Global, fields: &str) -> Result<String, LineFault> {
    let (word, source) = first_field(fields)?;
    let rows = read_rows(alloc, &EMPTY_ROOT, source)?;
    told_meetings(alloc, rows.as_slice(), word == "send")
}

// Stores the rows of the other kind, and tells what those of this kind meet.
fn told_meetings(alloc: Global, rows: &[Row], asks_sends: bool) -> Result<String, LineFault> {
    let mut store = Store::new(alloc)?;
    fill(alloc, &mut store, rows, !asks_sends)?;
    let mut answer = Answer::new(alloc);
    tell(alloc, &mut answer, &mut store, rows, asks_sends);
    answer.text()
}

// Whether a row is a send.
fn is_send(row: &Row) -> bool {
    match row.op() {
        Op::Produce { .. } => true,
        Op::Consume { .. } => false,
    }
}

// Stores the rows that are sends, or those that are receives.
fn fill(alloc: Global, store: &mut Store, rows: &[Row], sends: bool) -> Result<(), AllocError> {
    for row in rows {
        if is_send(row) == sends {
            store.show(alloc, row)?;
            SpaceTables::put(alloc, &mut store.held, row)?;
        }
    }
    Ok(())
}

// Tells what the rows that are sends meet, or those that are receives.
fn tell(alloc: Global, answer: &mut Answer, store: &mut Store, rows: &[Row], sends: bool) {
    for row in rows {
        if is_send(row) == sends {
            put_step(alloc, answer, store, row);
        }
    }
}

// Adds what a row meets.
fn put_step(alloc: Global, answer: &mut Answer, store: &mut Store, row: &Row) {
    if !answer.is_empty() {
        answer.put(", ");
    }
    match shown_step(alloc, store, row) {
        Ok(None) => answer.put("nothing"),
        Ok(Some(found)) => put_found(alloc, answer, &found),
        Err(_) => answer.lack_memory(),
    }
}

/// What a row meets in the shards that it shows.
pub fn shown_step(
    alloc: Global,
    store: &mut Store,
    row: &Row,
) -> Result<Option<Found>, AllocError> {
    store.show(alloc, row)?;
    SpaceTables::first_step(alloc, &store.held, row)
}

// Adds how many sends a step takes, what it binds, and how many rows leave.
fn put_found(alloc: Global, answer: &mut Answer, found: &Found) {
    let taken = found.taken.len();
    let gone = found.gone.len();
    answer.put_made(format!(in alloc; "takes {taken}, binds "));
    put_terms(alloc, answer, found.bound.as_slice());
    answer.put_made(format!(in alloc; ", {gone} leave"));
}
