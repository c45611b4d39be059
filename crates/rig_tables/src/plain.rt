//! The steps of a log that can be done, found by a plain walk: each step that is not done is looked at again and again, the last one
//! first, until none can be done.
ghost use Rattle.calculus.specs.Form.{IsClosed};
ghost use Rattle.calculus.specs.Substitution.{put};

use crate::bodies::{Coming, Ended, add_rows, in_order, offers};
use calculus::Digest;
use event_log::{Log, LogStep};
use found_rows::Found;
use least_step::built_in_rows;
use row_meeting::meet_rows;
use source_rows::{Kept, are_different};
use space_row::Row;
use std::alloc::{AllocError, Global};
use table_lines::LineFault;

/// What can be done of a log, after the rows of the source have come.
pub fn walk(alloc: Global, log: &Log, rows: &[Row]) -> Result<Ended, LineFault> {
    let built_ins = built_in_rows(alloc)?;
    let mut bag = first_bag(alloc, rows, built_ins.as_slice())?;
    let done = do_all(alloc, log, &mut bag)?;
    in_order(done, left(alloc, bag.as_slice(), built_ins.as_slice())?)
}

fn first_bag(alloc: Global, rows: &[Row], built_ins: &[Row]) -> Result<Vec<Coming>, AllocError> {
    let mut bag = Vec::new(alloc);
    add_rows(alloc, &mut bag, rows, None)?;
    add_rows(alloc, &mut bag, built_ins, None)?;
    Ok(bag)
}

// The ids of the rows that are left, without the built-in receivers.
fn left(alloc: Global, bag: &[Coming], built_ins: &[Row]) -> Result<Vec<Digest>, AllocError> {
    let mut left = Kept::new(alloc);
    for coming in bag {
        let id = coming.row.id();
        if !has_id(built_ins, &id) {
            left.put(id);
        }
    }
    left.values()
}

fn has_id(rows: &[Row], id: &Digest) -> bool {
    for row in rows {
        if &row.id() == id {
            return true;
        }
    }
    false
}

// Does steps until none can be done, and tells which were.
fn do_all(alloc: Global, log: &Log, bag: &mut Vec<Coming>) -> Result<Vec<u32>, LineFault> {
    let mut done = Vec::new(alloc);
    for _ in 0..=log.steps.len() {
        if !do_some(alloc, log, bag, &mut done)? {
            return Ok(done);
        }
    }
    Err(LineFault::Field)
}

// Does each step that can be done, and answers whether there was one.
fn do_some(
    alloc: Global,
    log: &Log,
    bag: &mut Vec<Coming>,
    done: &mut Vec<u32>,
) -> Result<bool, LineFault> {
    let mut some = false;
    for place in (0..log.steps.len()).rev() {
        if !is_done(done.as_slice(), place) && do_one(alloc, log, bag, place, done.as_slice())? {
            done.push(number_of(place))?;
            some = true;
        }
    }
    Ok(some)
}

// The number of a place; a log has fewer than 2^32.
fn number_of(place: usize) -> u32 {
    (place % 0x1_0000_0000) as u32
}

// Whether the step at a place is done.
fn is_done(done: &[u32], place: usize) -> bool {
    done.contains(&number_of(place))
}

// Does the step at a place, if it may be done now, and answers whether it was.
fn do_one(
    alloc: Global,
    log: &Log,
    bag: &mut Vec<Coming>,
    place: usize,
    done: &[u32],
) -> Result<bool, LineFault> {
    let Some(step) = log.steps.get(place) else {
        return Ok(false);
    };
    if !is_next(log.steps.as_slice(), place, step, done) {
        return Ok(false);
    }
    let rows = rows_of(alloc, bag.as_slice(), step, place)?;
    meet(alloc, bag, place, step, rows.as_slice())
}

// Copies of those rows of a step that the source or a step below this place offered: the receiver, and the sends.
fn rows_of(
    alloc: Global,
    bag: &[Coming],
    step: &LogStep,
    place: usize,
) -> Result<Vec<Row>, AllocError> {
    let mut rows = Kept::new(alloc);
    add_row(alloc, &mut rows, bag, &step.cont, place);
    for id in step.taken.as_slice() {
        add_row(alloc, &mut rows, bag, id, place);
    }
    rows.values()
}

// Adds a copy of the row with this id, where the source or a step below this place offered it.
fn add_row(alloc: Global, rows: &mut Kept<Row>, bag: &[Coming], id: &Digest, place: usize) {
    for coming in bag {
        if &coming.row.id() == id && is_from_below(coming.from, place) {
            rows.put_made(coming.row.copy(alloc));
            return;
        }
    }
}

fn is_from_below(from: Option<u32>, place: usize) -> bool {
    match from {
        None => true,
        Some(step) => (step as usize) < place,
    }
}

// Does a step, if all its rows are there and meet, and answers whether it was done.
fn meet(
    alloc: Global,
    bag: &mut Vec<Coming>,
    place: usize,
    step: &LogStep,
    rows: &[Row],
) -> Result<bool, LineFault> {
    let Some((receiver, sends)) = rows.split_first() else {
        return Ok(false);
    };
    if sends.len() != step.taken.len() {
        return Ok(false);
    }
    match meet_rows(alloc, receiver, sends)? {
        Some(found) => finish(alloc, bag, place, step, &found),
        None => Ok(false),
    }
}

// Does a step that comes to this, unless it is a repeat and its rows would leave.
fn finish(
    alloc: Global,
    bag: &mut Vec<Coming>,
    place: usize,
    step: &LogStep,
    found: &Found,
) -> Result<bool, LineFault>
    requires { IsClosed (put found.now.bound.items found.now.body) }
{
    if step.repeat != 0 && !found.lasting {
        return Ok(false);
    }
    let rows = offers(alloc, step, found)?;
    leave(bag, found.gone.as_slice());
    add_rows(alloc, bag, rows.as_slice(), Some(number_of(place)))?;
    Ok(true)
}

// Whether no step below one that is not done names a row of it, its data differ, and as many steps below it are equal to it as its repeat
// number says.
fn is_next(steps: &[LogStep], place: usize, step: &LogStep, done: &[u32]) -> bool {
    let mut equal = 0u32;
    for (other_place, other) in steps.iter().enumerate() {
        if other_place < place {
            if !is_done(done, other_place) && share_row(step, other) {
                return false;
            }
            if step.cont == other.cont && step.taken == other.taken {
                equal = equal.saturating_add(1);
            }
        }
    }
    step.repeat == equal && are_different(step.taken.as_slice())
}

// Whether two steps name one row.
fn share_row(one: &LogStep, other: &LogStep) -> bool {
    if names(other, &one.cont) {
        return true;
    }
    for id in one.taken.as_slice() {
        if names(other, id) {
            return true;
        }
    }
    false
}

fn names(step: &LogStep, id: &Digest) -> bool {
    &step.cont == id || step.taken.contains(id)
}

// The rows with these ids leave.
fn leave(bag: &mut Vec<Coming>, gone: &[Digest]) {
    for _ in 0..bag.len() {
        if let Some(place) = place_of(bag.as_slice(), gone) {
            if place < bag.len() {
                bag.swap_remove(place);
            }
        }
    }
}

// The place of a row with one of these ids.
fn place_of(bag: &[Coming], gone: &[Digest]) -> Option<usize> {
    for (place, coming) in bag.iter().enumerate() {
        if gone.contains(&coming.row.id()) {
            return Some(place);
        }
    }
    None
}
