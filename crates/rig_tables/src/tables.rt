//! The kinds of lines.
ghost use Rattle.event_log.specs.View.{IsWritable, steps_of};
ghost use Rattle.replay_space.specs.Rigs.{IsRigOf};

use crate::bodies::Ended;
use crate::plain::walk;
use crate::racing::{next_number, race};
use crate::reading::read_digits;
use calculus::Digest;
use event_log::Log;
use replay_space::Rig;
use source_rows::read_rows;
use space_row::Row;
use std::alloc::Global;
use table_lines::{Fields, LineFault};

/// In how many orders the jobs of a line are done.
const ORDERS: u32 = 12;

/// The indices of the steps of a log that use an id: the digits of the id and of the log.
pub fn uses(alloc: Global, fields: &str) -> Result<String, LineFault> {
    let mut fields = Fields::new(fields);
    let id = Digest(fields.digest());
    let log = read_digits(alloc, fields.rest()?)?;
    let rig = Rig::from_log(alloc, &log)?;
    told_uses(alloc, &rig, &id)
}

fn told_uses(alloc: Global, rig: &Rig, id: &Digest) -> Result<String, LineFault> {
    Ok(format!(in alloc; "{:?}", rig.uses(id))?)
}

/// Whether a log comes to the same in all orders, and by the plain walk: a number that draws the orders, the digits of the log, and the
/// source.
pub fn any_order(alloc: Global, fields: &str) -> Result<String, LineFault> {
    let told = match raced(alloc, fields)? {
        Some(_) => "agree",
        None => "other steps or rows",
    };
    Ok(String::from_str(alloc, told)?)
}

/// The same, with the indices of the steps that are done and of how many there are.
pub fn done(alloc: Global, fields: &str) -> Result<String, LineFault> {
    let told = match raced(alloc, fields)? {
        Some(done) => format!(in alloc; "agree, done {:?}", done),
        None => String::from_str(alloc, "other steps or rows"),
    };
    Ok(told?)
}

// The steps that are done of a log, where it comes to the same in all orders and by the plain walk.
fn raced(alloc: Global, fields: &str) -> Result<Option<Vec<u32>>, LineFault> {
    let mut fields = Fields::new(fields);
    let seed = u64::from(fields.number());
    let log = fields.word();
    let source = fields.rest()?;
    let log = read_digits(alloc, log)?;
    let rows = read_rows(alloc, &log.header.base, source)?;
    raced_rows(alloc, &log, rows.as_slice(), seed)
}

fn raced_rows(
    alloc: Global,
    log: &Log,
    rows: &[Row],
    seed: u64,
) -> Result<Option<Vec<u32>>, LineFault>
    requires { IsWritable log.now }
{
    let plain = walk(alloc, log, rows)?;
    let rig = Rig::from_log(alloc, log)?;
    if is_raced(alloc, log, &rig, rows, seed, &plain)? {
        return Ok(Some(plain.done));
    }
    Ok(None)
}

// Whether a log comes to this in all orders.
fn is_raced(
    alloc: Global,
    log: &Log,
    rig: &Rig,
    rows: &[Row],
    seed: u64,
    plain: &Ended,
) -> Result<bool, LineFault>
    requires writable { IsWritable log.now }
    requires rig { IsRigOf (steps_of log.now.steps.items) rig.now }
{
    let mut state = seed;
    for _ in 0..ORDERS {
        state = next_number(state);
        if !race(alloc, log, rig, rows, state)?.is_same(plain) {
            return Ok(false);
        }
    }
    Ok(true)
}
