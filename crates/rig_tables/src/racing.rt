//! Jobs of a replay in an order that is drawn: rows arrive, and steps are tried that may be the next use of a row.
ghost use Rattle.std.specs.Prelude.{IfOk, OnOk};
ghost use Rattle.event_log.specs.View.{IsWritable, steps_of};
ghost use Rattle.replay_space.specs.Rigs.{IsRigOf};
ghost use Rattle.replay_store.specs.Stores.{AreAll};

use crate::bodies::{Coming, Ended, add_rows, in_order, offers};
use calculus::Digest;
use event_log::Log;
use replay_shards::{ReplayHeld, ReplayShard, ShardedRow, Try, first_tries};
use replay_space::Rig;
use replay_store::rows_of;
use source_rows::Kept;
use space_row::Row;
use std::alloc::{AllocError, Global};
use table_lines::LineFault;

/// The most jobs of a line.
const MOST_JOBS: u32 = 100_000;

/// What is pending: rows that are to arrive, and steps that are to be tried; and the steps that were done.
#[derive(Drop)]
struct Jobs {
    coming: Vec<Coming>,
    tries: Vec<u32>,
    done: Vec<u32>,
}

// What a step that was done leaves to do.
#[derive(Drop)]
struct Made {
    rows: Vec<Row>,
    next: Vec<Try>,
}

/// Does the jobs of a log until none is pending: the rows of the source arrive, and each job is drawn by numbers that begin with this one.
pub fn race(
    alloc: Global,
    log: &Log,
    rig: &Rig,
    rows: &[Row],
    seed: u64,
) -> Result<Ended, LineFault>
    requires writable { IsWritable log.now }
    requires rig { IsRigOf (steps_of log.now.steps.items) rig.now }
{
    let mut jobs = first_jobs(alloc, rows)?;
    let left = race_jobs(alloc, log, rig, &mut jobs, seed)?;
    in_order(jobs.done, left)
}

// The rows of the source are to arrive.
fn first_jobs(alloc: Global, rows: &[Row]) -> Result<Jobs, AllocError> {
    let mut coming = Vec::new(alloc);
    add_rows(alloc, &mut coming, rows, None)?;
    Ok(Jobs {
        coming,
        tries: Vec::new(alloc),
        done: Vec::new(alloc),
    })
}

// Does jobs until none is pending, and tells the ids of the rows that are left.
fn race_jobs(
    alloc: Global,
    log: &Log,
    rig: &Rig,
    jobs: &mut Jobs,
    seed: u64,
) -> Result<Vec<Digest>, LineFault>
    requires writable { IsWritable log.now }
    requires rig { IsRigOf (steps_of log.now.steps.items) rig.now }
{
    let mut held = empty_hand(alloc)?;
    do_jobs(alloc, log, rig, &mut held, jobs, seed)?;
    Ok(left(alloc, &mut held)?)
}

// Does jobs until none is pending.
fn do_jobs(
    alloc: Global,
    log: &Log,
    rig: &Rig,
    held: &mut ReplayHeld,
    jobs: &mut Jobs,
    seed: u64,
) -> Result<(), LineFault>
    requires writable { IsWritable log.now }
    requires rig { IsRigOf (steps_of log.now.steps.items) rig.now }
    requires all { AreAll held.old }
{
    let mut state = seed;
    for _ in 0..MOST_JOBS {
        state = next_number(state);
        match draw(jobs, state) {
            Drawn::Nothing => return Ok(()),
            Drawn::Row => bring_one(alloc, rig, held, jobs, state)?,
            Drawn::Step(step) => try_one(alloc, log, rig, held, jobs, step)?,
        }
    }
    Err(LineFault::Field)
}

/// The number that is drawn after another.
pub fn next_number(state: u64) -> u64 {
    state
        .wrapping_mul(6_364_136_223_846_793_005)
        .wrapping_add(1_442_695_040_888_963_407)
}

// A place below a count, by a number that was drawn.
fn place_below(count: usize, state: u64) -> usize {
    if count == 0 {
        return 0;
    }
    (state >> 33) as usize % count
}

// What is drawn: a row that is to arrive, or a step that is to be tried.
#[derive(Clone, Copy)]
enum Drawn {
    Nothing,
    Row,
    Step(u32),
}

fn draw(jobs: &mut Jobs, state: u64) -> Drawn {
    let rows = jobs.coming.len();
    let place = place_below(rows.saturating_add(jobs.tries.len()), state);
    if place < rows {
        return Drawn::Row;
    }
    let place = place.saturating_sub(rows);
    if place < jobs.tries.len() {
        return Drawn::Step(jobs.tries.swap_remove(place));
    }
    Drawn::Nothing
}

// 64 shards in hand, before any row has arrived.
fn empty_hand(alloc: Global) -> Result<ReplayHeld, AllocError>
    ensures { IfOk result AreAll }
{
    let mut held = ReplayHeld::new(alloc)?;
    for number in 0..64u32 {
        held.add(number, ReplayShard::new(alloc, number)?);
    }
    Ok(held)
}

// A row arrives that is drawn.
fn bring_one(
    alloc: Global,
    rig: &Rig,
    held: &mut ReplayHeld,
    jobs: &mut Jobs,
    state: u64,
) -> Result<(), LineFault>
    requires { AreAll held.old }
    ensures { OnOk result (AreAll held.new) }
{
    let place = place_below(jobs.coming.len(), state);
    if place >= jobs.coming.len() {
        return Err(LineFault::Field);
    }
    let coming = jobs.coming.swap_remove(place);
    let row = ShardedRow::from_row(alloc, coming.row)?;
    add_first(alloc, rig, &mut jobs.tries, &row, coming.from)?;
    let shards = row.shards();
    held.arrive(alloc, row, coming.from, shards)?;
    Ok(())
}

// Adds the steps that are to be tried once a row has arrived.
fn add_first(
    alloc: Global,
    rig: &Rig,
    all: &mut Vec<u32>,
    row: &ShardedRow,
    from: Option<u32>,
) -> Result<(), AllocError> {
    add_tries(all, first_tries(alloc, rig, row, from)?.as_slice())
}

fn add_tries(all: &mut Vec<u32>, tries: &[Try]) -> Result<(), AllocError> {
    for tried in tries {
        all.push(tried.step)?;
    }
    Ok(())
}

// Tries a step, and adds what follows where it is done.
fn try_one(
    alloc: Global,
    log: &Log,
    rig: &Rig,
    held: &mut ReplayHeld,
    jobs: &mut Jobs,
    step: u32,
) -> Result<(), LineFault>
    requires writable { IsWritable log.now }
    requires rig { IsRigOf (steps_of log.now.steps.items) rig.now }
    requires all { AreAll held.old }
    ensures { OnOk result (AreAll held.new) }
{
    match try_step(alloc, log, rig, held, step)? {
        Some(made) => Ok(add_jobs(alloc, jobs, step, &made)?),
        None => Ok(()),
    }
}

// Adds what a step that was done leaves to do.
fn add_jobs(alloc: Global, jobs: &mut Jobs, step: u32, made: &Made) -> Result<(), AllocError> {
    jobs.done.push(step)?;
    add_rows(alloc, &mut jobs.coming, made.rows.as_slice(), Some(step))?;
    add_tries(&mut jobs.tries, made.next.as_slice())
}

// Does a step, if it may be done now.
fn try_step(
    alloc: Global,
    log: &Log,
    rig: &Rig,
    held: &mut ReplayHeld,
    step: u32,
) -> Result<Option<Made>, LineFault>
    requires writable { IsWritable log.now }
    requires rig { IsRigOf (steps_of log.now.steps.items) rig.now }
    requires all { AreAll held.old }
    ensures { OnOk result (AreAll held.new) }
{
    if step as usize >= log.steps.len() {
        return Ok(None);
    }
    if held.step_shards(log, step).is_none() {
        return Ok(None);
    }
    let Some(ready) = held.possible(alloc, rig, log, step)? else {
        return Ok(None);
    };
    let rows = offers(alloc, &log.steps[step as usize], &ready.found)?;
    held.commit_done(log, step, ready.found.gone.as_slice());
    Ok(Some(Made {
        rows,
        next: ready.next,
    }))
}

// The ids of the rows that are left; all shards are taken out of hand.
fn left(alloc: Global, held: &mut ReplayHeld) -> Result<Vec<Digest>, AllocError> {
    let mut shards = Kept::new(alloc);
    for number in 0..64u32 {
        shards.put_some(held.remove(number));
    }
    ids(alloc, rows_of(alloc, shards.values()?)?.as_slice())
}

fn ids(alloc: Global, rows: &[Row]) -> Result<Vec<Digest>, AllocError> {
    let mut ids = Kept::new(alloc);
    for row in rows {
        ids.put(row.id());
    }
    ids.values()
}
