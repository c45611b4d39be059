//! Seats that do the works of the scene of numbers, one after another and in threads.
ghost use Rattle.std.specs.Prelude.{◌≡◌, ℕ, ◌<◌, ◌^◌, ◌≤◌, IfOk, length};
ghost use Rattle.std.specs.List.{All};
ghost use Rattle.group_locks.specs.Seats.{AtRest, IsIdle};

use crate::runs::{Ran, close, open, run_hub};
use crate::{Busy, Hand, Numbers, Site, do_work};
use group_locks::{Hub, Pool, Seat, StopCause};
use std::alloc::{AllocError, Global};
use std::rt::Clock;
use std::sync::Wait;
use std::thread::Threads;
use table_lines::{Case, LineFault, put_case};

const AT_ONCE: Busy = Busy {
    inside: 0,
    outside: 0,
};

// Does up to three works and then stops the hub.
fn work_and_stop<R: Wait>(
    rt: &R,
    alloc: Global,
    hub: &Hub<Numbers>,
    mut seat: Seat<Numbers>,
) -> Seat<Numbers>
    requires { IsIdle hub.now.table.shared.table_id seat.state }
    ensures { AtRest hub.now.table.shared.table_id result.state }
{
    let site = Site {
        rt,
        alloc,
        busy: AT_ONCE,
    };
    let mut hand = Hand::empty();
    for _ in 0..3u64 {
        let Some(work) = seat.take_op(rt, hub) else {
            return seat;
        };
        if !do_work(&site, hub, &mut seat, &mut hand, work) {
            return seat;
        }
    }
    seat.stop(hub, StopCause::NoMemory);
    seat
}

// The works below this number.
fn works(alloc: Global, count: u64) -> Result<Vec<u64>, AllocError>
    requires { count ≤ 128 }
    ensures { IfOk result (λ v. length v.items ≤ 2 ^ 58) }
{
    let mut works = Vec::new(alloc);
    for work in 0..count {
        works.push(work)?;
    }
    Ok(works)
}

// One seat after another works and stops the hub. Tells also whether the first could go on before, and whether one of the others could.
fn one_by_one<R: Wait>(
    rt: &R,
    alloc: Global,
    hub: &Hub<Numbers>,
    seats: Vec<Seat<Numbers>>,
) -> Result<(Vec<Seat<Numbers>>, bool, bool), AllocError>
    requires each { All (λ s. IsIdle hub.now.table.shared.table_id s.state) seats.items }
    ensures count { IfOk result (λ v. length v.0.items ≡ length seats.items) }
    ensures each { IfOk result (λ v. All (λ s. AtRest hub.now.table.shared.table_id s.state) v.0.items) }
{
    let mut done = Vec::new(alloc);
    let mut first = false;
    let mut later = false;
    for mut seat in seats {
        let may_go = seat.may_go(hub);
        let is_first = done.is_empty();
        first |= may_go & is_first;
        later |= may_go & !is_first;
        done.push(work_and_stop(rt, alloc, hub, seat))?;
    }
    Ok((done, first, later))
}

// What a hub leaves on which so many seats do the works below this number.
fn worked<R: Threads + Wait + Sync + Clock>(
    rt: &R,
    alloc: Global,
    count: u64,
    seats: u32,
    limit: u64,
) -> Result<Ran, AllocError>
    requires { (count ≤ 128) × (1 ≤ seats) × (seats ≤ 32) × (limit < 2 ^ 62) }
{
    let work = works(alloc, count)?;
    run_hub(rt, alloc, work, seats, AT_ONCE, limit)
}

fn seats_without_work_end_at_once<R: Threads + Wait + Sync + Clock>(
    rt: &R,
    alloc: Global,
) -> Result<Case, AllocError> {
    let ran = worked(rt, alloc, 0, 2, 1000)?;
    let closed = &ran.closed;
    let mut case = Case::new();
    case.must(closed.entries.len() == 0);
    case.must(closed.shards.len() == 64);
    case.must(closed.charged == 0);
    case.must(closed.left.len() == 0);
    case.must(closed.stop == None);
    Ok(case)
}

// Each of these numbers must be 3.
fn are_threes(case: &mut Case, numbers: &Vec<u64>) {
    for number in numbers {
        case.must(*number == 3);
    }
}

fn one_seat_does_all_works<R: Threads + Wait + Sync + Clock>(
    rt: &R,
    alloc: Global,
) -> Result<Case, AllocError> {
    let ran = worked(rt, alloc, 128, 1, 1000)?;
    let closed = &ran.closed;
    let mut case = Case::new();
    case.must(ran.counts_up);
    case.must(closed.entries.len() == 192);
    case.must(closed.charged == 192);
    case.must(closed.left.len() == 0);
    are_threes(&mut case, &closed.shards);
    Ok(case)
}

fn two_seats_do_all_works_side_by_side<R: Threads + Wait + Sync + Clock>(
    rt: &R,
    alloc: Global,
) -> Result<Case, AllocError> {
    let ran = worked(rt, alloc, 128, 2, 1000)?;
    let closed = &ran.closed;
    let mut case = Case::new();
    case.must(closed.entries.len() == 192);
    case.must(closed.charged == 192);
    case.must(closed.left.len() == 0);
    are_threes(&mut case, &closed.shards);
    Ok(case)
}

fn a_seat_ends_above_the_limit<R: Threads + Wait + Sync + Clock>(
    rt: &R,
    alloc: Global,
) -> Result<Case, AllocError> {
    let ran = worked(rt, alloc, 128, 1, 10)?;
    let closed = &ran.closed;
    let mut case = Case::new();
    case.must(closed.entries.len() == 11);
    case.must(closed.charged == 11);
    Ok(case)
}

fn a_stop_ends_the_other_seat<R: Threads + Wait + Sync + Clock>(
    rt: &R,
    alloc: Global,
) -> Result<Case, AllocError> {
    let work = works(alloc, 128)?;
    let Pool { hub, seats } = open(alloc, work, 2, 1000)?;
    let (seats, first, later) = one_by_one(rt, alloc, &hub, seats)?;
    let closed = close(hub, seats)?;
    let mut case = Case::new();
    case.must(first);
    case.must(!later);
    case.must(closed.entries.len() == 3);
    case.must(closed.stop == Some(StopCause::NoMemory));
    Ok(case)
}

// Puts the line of a case.
fn put(
    alloc: Global,
    told: &mut String,
    name: &str,
    case: Result<Case, AllocError>,
) -> Result<(), LineFault> {
    match case {
        Ok(case) => put_case(alloc, told, name, case),
        Err(_) => Err(LineFault::NoMemory),
    }
}

/// Puts the line of each case.
pub fn put_all<R: Threads + Wait + Sync + Clock>(
    rt: &R,
    alloc: Global,
    told: &mut String,
) -> Result<(), LineFault> {
    put(
        alloc,
        told,
        "seats_without_work_end_at_once",
        seats_without_work_end_at_once(rt, alloc),
    )?;
    put(
        alloc,
        told,
        "one_seat_does_all_works",
        one_seat_does_all_works(rt, alloc),
    )?;
    put(
        alloc,
        told,
        "two_seats_do_all_works_side_by_side",
        two_seats_do_all_works_side_by_side(rt, alloc),
    )?;
    put(
        alloc,
        told,
        "a_seat_ends_above_the_limit",
        a_seat_ends_above_the_limit(rt, alloc),
    )?;
    put(
        alloc,
        told,
        "a_stop_ends_the_other_seat",
        a_stop_ends_the_other_seat(rt, alloc),
    )
}
