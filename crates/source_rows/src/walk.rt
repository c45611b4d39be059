//! A plain walk through all rows that could meet: each receiver, with each choice of a send for each of its binds.
use crate::kept::Kept;
use calculus::Digest;
use found_rows::Found;
use rho_term::Op;
use row_meeting::meet_rows;
use space_row::Row;
use std::alloc::{AllocError, Global};
use table_lines::{Answer, LineFault};
use term_encoder::encode_term;

/// The most choices of sends that are tried with one receiver.
const MOST_CHOICES: usize = 1_000_000;

/// All meetings of these rows, each once.
pub fn meetings(alloc: Global, rows: &[&Row]) -> Result<Vec<Found>, LineFault> {
    let sends = sends_of(alloc, rows)?;
    let mut all = PlainWalk {
        found: Kept::new(alloc),
        are_many: false,
    };
    for row in rows {
        all.add_of(alloc, *row, sends.as_slice());
    }
    all.meetings()
}

fn sends_of<'a>(alloc: Global, rows: &[&'a Row]) -> Result<Vec<&'a Row>, AllocError> {
    let mut sends = Vec::new(alloc);
    sends.extend_from_slice(rows)?;
    sends.retain(|row| binds_of(*row) == 0);
    Ok(sends)
}

// How many binds a receive has, and none for a send.
fn binds_of(row: &Row) -> usize {
    match row.op() {
        Op::Produce { .. } => 0,
        Op::Consume { binds, .. } => binds.len(),
    }
}

// A walk: the meetings that were found, and whether there were too many choices to try.
#[derive(Drop)]
struct PlainWalk {
    found: Kept<Found>,
    are_many: bool,
}

impl PlainWalk {
    // Adds the meetings of a receiver with these sends.
    fn add_of(&mut self, alloc: Global, receiver: &Row, sends: &[&Row]) {
        let binds = binds_of(receiver);
        let choices = choices(sends.len(), binds);
        if choices > MOST_CHOICES {
            self.are_many = true;
            return;
        }
        for number in 0..choices {
            match choice(alloc, sends, binds, number) {
                Ok(chosen) => self.add(alloc, receiver, chosen.as_slice()),
                Err(_) => self.found.lack_memory(),
            }
        }
    }

    // Adds what a receiver and these sends come to, where they differ and meet.
    fn add(&mut self, alloc: Global, receiver: &Row, sends: &[Row]) {
        match meet_rows(alloc, receiver, sends) {
            Ok(found) => self.found.put_some(different(found)),
            Err(_) => self.found.lack_memory(),
        }
    }

    // The meetings, where no choices were left out and memory served.
    fn meetings(self) -> Result<Vec<Found>, LineFault> {
        let PlainWalk { found, are_many } = self;
        let found = found.values()?;
        if are_many {
            return Err(LineFault::Field);
        }
        Ok(found)
    }
}

// In how many ways as many sends may be chosen for as many binds; in none for no binds.
fn choices(sends: usize, binds: usize) -> usize {
    if binds == 0 {
        return 0;
    }
    let mut count = 1usize;
    for _ in 0..binds {
        count = count.saturating_mul(sends);
    }
    count
}

// The choice of a send for each bind that has this number.
fn choice(
    alloc: Global,
    sends: &[&Row],
    binds: usize,
    number: usize,
) -> Result<Vec<Row>, AllocError> {
    let mut rest = number;
    let mut chosen = Kept::new(alloc);
    for _ in 0..binds {
        if !sends.is_empty() {
            chosen.put_made(sends[rest % sends.len()].copy(alloc));
            rest /= sends.len();
        }
    }
    chosen.values()
}

// A meeting whose sends differ from one another.
fn different(found: Option<Found>) -> Option<Found> {
    let Some(found) = found else {
        return None;
    };
    if are_different(found.taken.as_slice()) {
        return Some(found);
    }
    None
}

/// Whether these ids differ from one another.
pub fn are_different(ids: &[Digest]) -> bool {
    for i in 0..ids.len() {
        if ids[i + 1..].contains(&ids[i]) {
            return false;
        }
    }
    true
}

/// Whether these rows have no meeting.
pub fn allows_nothing(alloc: Global, rows: &[&Row]) -> Result<bool, LineFault> {
    Ok(meetings(alloc, rows)?.is_empty())
}

/// Whether this is a meeting of these rows.
pub fn allows(alloc: Global, rows: &[&Row], found: &Found) -> Result<bool, LineFault> {
    let all = meetings(alloc, rows)?;
    is_one_of(alloc, found, all.as_slice())
}

// Whether one of these meetings is this one.
fn is_one_of(alloc: Global, found: &Found, all: &[Found]) -> Result<bool, LineFault> {
    for other in all {
        if has_same_rows(found, other) && has_same_codes(alloc, found, other)? {
            return Ok(true);
        }
    }
    Ok(false)
}

fn has_same_rows(one: &Found, other: &Found) -> bool {
    one.cont == other.cont
        && one.taken == other.taken
        && one.gone == other.gone
        && one.lasting == other.lasting
}

// Whether two meetings bind as many terms, with the same codes, in bodies with the same code.
fn has_same_codes(alloc: Global, one: &Found, other: &Found) -> Result<bool, LineFault> {
    Ok(one.bound.len() == other.bound.len() && codes(alloc, one)? == codes(alloc, other)?)
}

// The digits of the codes of the body of a meeting and of what it binds, each of which tells its end.
fn codes(alloc: Global, found: &Found) -> Result<String, LineFault> {
    let mut codes = Answer::new(alloc);
    codes.put_hex_of(encode_term(alloc, &found.body));
    for term in found.bound.as_slice() {
        codes.put_hex_of(encode_term(alloc, term));
    }
    codes.text()
}
