//! What stores find, beside what the plain walk allows.
use crate::meets::shown_step;
use crate::store::Store;
use calculus::Digest;
use found_rows::Found;
use least_step::{LeastStep, built_in_rows, first_reducible};
use name_seed::EMPTY_ROOT;
use rspace_table::SpaceTables;
use shard_tables::ShardTables;
use source_rows::{allows, allows_nothing, meetings, read_rows};
use space_row::Row;
use std::alloc::{AllocError, Global};
use std::cmp::Ordering;
use table_lines::{Fields, LineFault};

/// Brings the rows of a source to a store one by one, in an order that the number before the source draws: a row that meets nothing is
/// stored, and else what it meets leaves, until it leaves itself or meets nothing. Answers whether each step that was found, and each
/// answer that there is none, is what the plain walk through all rows says, and whether the store has the rows that are left.
pub fn store_steps(alloc: Global, fields: &str) -> Result<String, LineFault> {
    let mut fields = Fields::new(fields);
    let seed = fields.number();
    let mut rows = read_rows(alloc, &EMPTY_ROOT, fields.rest()?)?;
    shuffle(rows.as_mut_slice(), seed);
    told_steps(alloc, rows.as_slice())
}

// Puts values in an order that a number draws.
fn shuffle<T>(values: &mut [T], seed: u32) {
    let mut state = u64::from(seed);
    for left in (1..=values.len()).rev() {
        state = state
            .wrapping_mul(6_364_136_223_846_793_005)
            .wrapping_add(1_442_695_040_888_963_407);
        values.swap((state >> 33) as usize % left, left - 1);
    }
    values.reverse();
}

fn told_steps(alloc: Global, rows: &[Row]) -> Result<String, LineFault> {
    let built_ins = built_in_rows(alloc)?;
    let mut store = Store::new(alloc)?;
    told_with(alloc, &mut store, rows, built_ins.as_slice())
}

fn told_with<'a>(
    alloc: Global,
    store: &mut Store,
    rows: &'a [Row],
    built_ins: &'a [Row],
) -> Result<String, LineFault> {
    let mut stored = Vec::new(alloc);
    refer(&mut stored, built_ins)?;
    if let Some(place) = first_wrong(alloc, store, &mut stored, rows)? {
        return Ok(format!(in alloc; "another step at row {place}")?);
    }
    told_left(alloc, store, stored.as_slice(), built_ins)
}

// Whether a store has the rows that are left, with the built-in receivers.
fn told_left(
    alloc: Global,
    store: &mut Store,
    stored: &[&Row],
    built_ins: &[Row],
) -> Result<String, LineFault> {
    let left = store.take_rows(alloc)?;
    let told = if has_all(alloc, stored, left.as_slice(), built_ins)? {
        "agree"
    } else {
        "other rows"
    };
    Ok(String::from_str(alloc, told)?)
}

// Brings rows to a store, and tells at which of them an answer was not as the plain walk says.
fn first_wrong<'a>(
    alloc: Global,
    store: &mut Store,
    stored: &mut Vec<&'a Row>,
    rows: &'a [Row],
) -> Result<Option<usize>, LineFault> {
    for (place, row) in rows.iter().enumerate() {
        if !bring(alloc, store, stored, row)? {
            return Ok(Some(place));
        }
    }
    Ok(None)
}

// Brings a row to a store: whether each answer was as the plain walk says. The rows that are stored and the built-in receivers have no
// meeting before, so that each one that the walk finds is of this row.
fn bring<'a>(
    alloc: Global,
    store: &mut Store,
    stored: &mut Vec<&'a Row>,
    row: &'a Row,
) -> Result<bool, LineFault> {
    stored.push(row)?;
    for _ in 0..stored.len() {
        if let Some(agrees) = ask(alloc, store, stored, row)? {
            return Ok(agrees);
        }
    }
    Ok(false)
}

// Asks a store what the last of these rows meets, and takes that out or stores the row. Whether the answer was as the plain walk says,
// and nothing where it was and the row is to be asked for again.
fn ask(
    alloc: Global,
    store: &mut Store,
    stored: &mut Vec<&Row>,
    row: &Row,
) -> Result<Option<bool>, LineFault> {
    match shown_step(alloc, store, row)? {
        None => store_row(alloc, store, stored.as_slice(), row),
        Some(found) => take_step(alloc, store, stored, row, &found),
    }
}

// Stores a row that is said to meet nothing. Whether that is what the walk says of these rows.
fn store_row(
    alloc: Global,
    store: &mut Store,
    stored: &[&Row],
    row: &Row,
) -> Result<Option<bool>, LineFault> {
    SpaceTables::put(alloc, &mut store.held, row)?;
    Ok(Some(allows_nothing(alloc, stored)?))
}

// Takes out what a row met, where that is one of the meetings that the walk allows. Where nothing leaves, the row does.
fn take_step(
    alloc: Global,
    store: &mut Store,
    stored: &mut Vec<&Row>,
    row: &Row,
    found: &Found,
) -> Result<Option<bool>, LineFault> {
    if !allows(alloc, stored.as_slice(), found)? {
        return Ok(Some(false));
    }
    if found.lasting {
        stored.pop();
        return Ok(Some(true));
    }
    let gone = found.gone.as_slice();
    SpaceTables::take_out(&mut store.held, gone);
    leave(stored, gone);
    Ok(if gone.contains(&row.id()) {
        Some(true)
    } else {
        None
    })
}

// The rows with these ids leave.
fn leave(stored: &mut Vec<&Row>, gone: &[Digest]) {
    stored.retain(|row| !gone.contains(&row.id()));
}

/// How many meetings the plain walk finds among the rows of a source and the built-in receivers, and whether the least of them by ids
/// is what is told of the rows.
pub fn least_step(alloc: Global, source: &str) -> Result<String, LineFault> {
    let rows = read_rows(alloc, &EMPTY_ROOT, source)?;
    told_least(alloc, rows.as_slice())
}

fn told_least(alloc: Global, rows: &[Row]) -> Result<String, LineFault> {
    let built_ins = built_in_rows(alloc)?;
    let all = all_meetings(alloc, rows, built_ins.as_slice())?;
    told_count(alloc, rows, all.as_slice())
}

// The meetings of these rows and those.
fn all_meetings(alloc: Global, rows: &[Row], others: &[Row]) -> Result<Vec<Found>, LineFault> {
    meetings(alloc, both(alloc, rows, others)?.as_slice())
}

// How many meetings there are, and whether what is told of the rows is the least.
fn told_count(alloc: Global, rows: &[Row], all: &[Found]) -> Result<String, LineFault> {
    let step = first_reducible(alloc, rows)?;
    let told = if is_told(step.as_ref(), all) {
        "agree"
    } else {
        "another step"
    };
    let count = all.len();
    Ok(format!(in alloc; "{count} {told}")?)
}

fn is_told(step: Option<&LeastStep>, all: &[Found]) -> bool {
    match step {
        None => all.is_empty(),
        Some(step) => is_least(step, all),
    }
}

// Whether a step is one of these meetings, and none has lower ids.
fn is_least(step: &LeastStep, all: &[Found]) -> bool {
    let mut is_there = false;
    for found in all {
        match order(found, step) {
            Ordering::Less => return false,
            Ordering::Equal => is_there = true,
            Ordering::Greater => {}
        }
    }
    is_there
}

// The order of the ids of a meeting and of a step, the receiver's first.
fn order(found: &Found, step: &LeastStep) -> Ordering {
    let mut order = found.cont.0.cmp(&step.cont.0);
    for i in 0..found.taken.len() {
        if order.is_eq() {
            order = match step.taken.get(i) {
                Some(id) => found.taken[i].0.cmp(&id.0),
                None => Ordering::Greater,
            };
        }
    }
    order
}

// Whether these rows are as many as those of both lists together, with the same ids.
fn has_all(
    alloc: Global,
    rows: &[&Row],
    left: &[Row],
    built_ins: &[Row],
) -> Result<bool, AllocError> {
    let others = both(alloc, left, built_ins)?;
    let others = others.as_slice();
    Ok(rows.len() == others.len() && has_rows(rows, others) && has_rows(others, rows))
}

// Whether each of these rows has the id of one of those.
fn has_rows(rows: &[&Row], others: &[&Row]) -> bool {
    for row in rows {
        if !has_id(others, &row.id()) {
            return false;
        }
    }
    true
}

fn has_id(rows: &[&Row], id: &Digest) -> bool {
    for row in rows {
        if &row.id() == id {
            return true;
        }
    }
    false
}

// Adds references to rows.
fn refer<'a>(all: &mut Vec<&'a Row>, rows: &'a [Row]) -> Result<(), AllocError> {
    for row in rows {
        all.push(row)?;
    }
    Ok(())
}

// These rows and those.
fn both<'a>(alloc: Global, rows: &'a [Row], others: &'a [Row]) -> Result<Vec<&'a Row>, AllocError> {
    let mut all = Vec::new(alloc);
    refer(&mut all, rows)?;
    refer(&mut all, others)?;
    Ok(all)
}
