//! One run of a hub, and the same works without a hub.
ghost use Rattle.std.specs.Prelude.{◌≡◌, ◌<◌, ◌≤◌, ◌^◌, ℕ, IfOk, length};
ghost use Rattle.std.specs.List.{All};
ghost use Rattle.group_locks.specs.Seats.{AtRest, IsIdle, seat_count};

use crate::{Busy, Numbers, side_by_side, spin, zeros};
use group_locks::{Closed, Hub, Pool, Seat, Terms};
use std::alloc::{AllocError, Global};
use std::rt::Clock;
use std::sync::Wait;
use std::thread::Threads;
use std::time::Instant;
use table_lines::{LineFault, number};

/// How much is done.
#[derive(Drop, Clone, Copy)]
struct Size {
    seats: u32,
    /// With how many works the hub opens.
    chains: u32,
    /// How many works follow each of them, one after another.
    long: u32,
    busy: Busy,
}

impl Size {
    /// The fields are the seats, the chains, how many works follow each, and the rounds inside and outside.
    fn read(fields: &str) -> Result<Size, LineFault> {
        let [seats, chains, long, inside, outside] = five_numbers(fields)?;
        Ok(Size {
            seats,
            chains,
            long,
            busy: Busy {
                inside: u64::from(inside),
                outside: u64::from(outside),
            },
        })
    }
}

// Five numbers in decimal digits, with spaces between.
fn five_numbers(fields: &str) -> Result<[u32; 5], LineFault> {
    let mut numbers = [0u32; 5];
    let mut count = 0usize;
    for field in fields.split(' ') {
        if count >= 5 {
            return Err(LineFault::Field);
        }
        numbers[count] = number(field)?;
        count += 1;
    }
    if count < 5 {
        return Err(LineFault::Field);
    }
    Ok(numbers)
}

/// What a hub left, whether each seat drew the numbers from 0 on, one after another, and the times at which the hub was opened, worked
/// through and closed, where there is a clock.
#[derive(Drop)]
pub struct Ran {
    pub closed: Closed<Numbers>,
    pub counts_up: bool,
    start: Option<Instant>,
    opened: Option<Instant>,
    worked: Option<Instant>,
    end: Option<Instant>,
}

fn now<R: Clock>(rt: &R) -> Option<Instant> {
    Instant::now(rt).ok()
}

// So many works, each with so many that follow it: on all shards, or on one.
fn works(alloc: Global, size: &Size, spread: bool) -> Result<Vec<u64>, AllocError>
    ensures { IfOk result (λ v. length v.items ≤ 2 ^ 58) }
{
    let first = u64::from(size.long) * 64;
    let mut works = Vec::new(alloc);
    for chain in 0..size.chains {
        works.push(if spread {
            first + u64::from(chain) % 64
        } else {
            first
        })?;
    }
    Ok(works)
}

/// A hub over the 64 numbers, all 0, that opens with these works.
pub fn open(
    alloc: Global,
    work: Vec<u64>,
    seats: u32,
    limit: u64,
) -> Result<Pool<Numbers>, AllocError>
    requires { (1 ≤ seats) × (seats ≤ 32) × (limit < 2 ^ 62) × (length work.items ≤ 2 ^ 58) }
    ensures count { IfOk result (λ p. length p.seats.items ≡ seat_count p.hub.table.shared.key) }
    ensures each { IfOk result (λ p. All (λ s. IsIdle p.hub.table.shared.table_id s.state) p.seats.items) }
{
    let shards = zeros(alloc)?;
    let terms = Terms {
        seats,
        spent: 0,
        limit,
    };
    let pool = Hub::start(alloc, Numbers, shards, work, terms)?;
    Ok(pool)
}

/// What a hub leaves.
pub fn close(hub: Hub<Numbers>, seats: Vec<Seat<Numbers>>) -> Result<Closed<Numbers>, AllocError>
    requires seats { All (λ s. AtRest hub.table.shared.table_id s.state) seats.items }
    requires count { length seats.items ≡ seat_count hub.table.shared.key }
{
    match hub.close(seats) {
        Ok(closed) => Ok(closed),
        Err(_) => Err(AllocError),
    }
}

// Whether each of these seats drew the numbers from 0 on, one after another.
fn count_up(seats: &Vec<Seat<Numbers>>) -> bool {
    for seat in seats {
        let drawn = seat.drawn();
        for place in 0..drawn.len() {
            if drawn[place].0 != place as u64 {
                return false;
            }
        }
    }
    true
}

/// Runs a hub until nothing is pending, or more is charged than the limit.
pub fn run_hub<R: Threads + Wait + Sync + Clock>(
    rt: &R,
    alloc: Global,
    work: Vec<u64>,
    seats: u32,
    busy: Busy,
    limit: u64,
) -> Result<Ran, AllocError>
    requires { (1 ≤ seats) × (seats ≤ 32) × (limit < 2 ^ 62) × (length work.items ≤ 2 ^ 58) }
{
    let start = now(rt);
    let Pool { hub, seats } = open(alloc, work, seats, limit)?;
    let opened = now(rt);
    let seats = side_by_side(rt, alloc, &hub, seats, busy)?;
    let worked = now(rt);
    let counts_up = count_up(&seats);
    let closed = close(hub, seats)?;
    Ok(Ran {
        closed,
        counts_up,
        start,
        opened,
        worked,
        end: now(rt),
    })
}

// Works without a hub: those that are to be done, the numbers, and what was done.
#[derive(Drop)]
struct Plain {
    works: Vec<u64>,
    shards: [u64; 64],
    entries: Vec<(u64, u64)>,
}

impl Plain {
    // Does one work, as the one of this number. Its arithmetic never comes to 0.
    fn do_work(
        &mut self,
        alloc: Global,
        number: u64,
        work: u64,
        busy: Busy,
    ) -> Result<u64, AllocError> {
        let mut ops = Vec::new(alloc);
        if work >= 64 {
            ops.push(work - 64)?;
        }
        let mixed = spin(busy.inside, (work % 64) + 1);
        let place = (work % 64) as usize;
        self.shards[place] = self.shards[place].wrapping_add(1);
        self.entries.push((number, work))?;
        self.leave(ops)?;
        Ok(spin(busy.outside, mixed))
    }

    // Leaves works that are to be done.
    fn leave(&mut self, ops: Vec<u64>) -> Result<(), AllocError> {
        for op in ops {
            self.works.push(op)?;
        }
        Ok(())
    }
}

// Does all works one after another, and answers how many.
fn run_plain(alloc: Global, works: Vec<u64>, busy: Busy) -> Result<usize, AllocError> {
    let mut plain = Plain {
        works,
        shards: [0; 64],
        entries: Vec::new(alloc),
    };
    for number in 0..u64::MAX {
        let Some(work) = plain.works.pop() else {
            break;
        };
        if plain.do_work(alloc, number, work, busy)? == 0 {
            break;
        }
    }
    Ok(plain.entries.len())
}

// What a hub left.
fn told(alloc: Global, closed: &Closed<Numbers>, times: &str) -> Result<String, AllocError> {
    let mut sum = 0u64;
    for shard in &closed.shards {
        sum = sum.wrapping_add(*shard);
    }
    let entries = closed.entries.len();
    let charged = closed.charged;
    let left = closed.left.len();
    format!(in alloc; "entries {entries} charged {charged} left {left} sum {sum}{times}")
}

// How long a hub took, or that there is no clock.
fn times(alloc: Global, ran: &Ran) -> Result<String, AllocError> {
    let (Some(start), Some(opened), Some(worked), Some(end)) = (
        ran.start, ran.opened, ran.worked, ran.end,
    ) else {
        return String::from_str(alloc, ", no clock");
    };
    let count = (ran.closed.entries.len() as u128).max(1);
    let open = opened.duration_since(start).as_micros();
    let work = worked.duration_since(opened).as_nanos() / count;
    let close = end.duration_since(worked).as_nanos() / count;
    format!(in alloc; ", open {open} us, {work} ns a work, close {close} ns an entry")
}

// What a hub left, and how long it took, where this is asked for.
fn told_run(alloc: Global, ran: &Ran, timed: bool) -> Result<String, AllocError> {
    if !timed {
        return told(alloc, &ran.closed, "");
    }
    let times = times(alloc, ran)?;
    told(alloc, &ran.closed, times.as_str())
}

// How long each of so many works took without a hub, or that there is no clock.
fn plain_times(
    alloc: Global,
    entries: usize,
    start: Option<Instant>,
    end: Option<Instant>,
) -> Result<String, AllocError> {
    let (Some(start), Some(end)) = (start, end) else {
        return String::from_str(alloc, ", no clock");
    };
    let each = end.duration_since(start).as_nanos() / (entries as u128).max(1);
    format!(in alloc; ", {each} ns a work")
}

fn told_plain(alloc: Global, entries: usize, times: &str) -> Result<String, AllocError> {
    format!(in alloc; "entries {entries}{times}")
}

// The works without a hub.
fn without_hub<R: Clock>(
    rt: &R,
    alloc: Global,
    size: &Size,
    timed: bool,
) -> Result<String, AllocError> {
    let work = works(alloc, size, true)?;
    let start = now(rt);
    let entries = run_plain(alloc, work, size.busy)?;
    if !timed {
        return told_plain(alloc, entries, "");
    }
    let times = plain_times(alloc, entries, start, now(rt))?;
    told_plain(alloc, entries, times.as_str())
}

// The works of a hub, on all shards or on one.
fn hub_answer<R: Threads + Wait + Sync + Clock>(
    rt: &R,
    alloc: Global,
    size: &Size,
    spread: bool,
    timed: bool,
) -> Result<String, AllocError>
    requires { (1 ≤ size.now.seats) × (size.now.seats ≤ 32) }
{
    let work = works(alloc, size, spread)?;
    let ran = run_hub(rt, alloc, work, size.seats, size.busy, 1 << 61)?;
    told_run(alloc, &ran, timed)
}

// The same, where a hub can have so many seats.
fn with_hub<R: Threads + Wait + Sync + Clock>(
    rt: &R,
    alloc: Global,
    size: &Size,
    spread: bool,
    timed: bool,
) -> Result<String, LineFault> {
    if size.seats == 0 || size.seats > 32 {
        return Err(LineFault::Field);
    }
    served(hub_answer(rt, alloc, size, spread, timed))
}

// An answer, where memory served.
fn served(told: Result<String, AllocError>) -> Result<String, LineFault> {
    Ok(told?)
}

/// The answer to a line of this kind with these fields; where `timed`, also how long it took.
pub fn answer<R: Threads + Wait + Sync + Clock>(
    rt: &R,
    alloc: Global,
    word: &str,
    fields: &str,
    timed: bool,
) -> Result<String, LineFault> {
    let size = Size::read(fields)?;
    match word {
        // The works lie on all 64 shards.
        "spread" => with_hub(rt, alloc, &size, true, timed),
        // They lie on one.
        "one-shard" => with_hub(rt, alloc, &size, false, timed),
        // No hub: one loop does all works.
        "plain" => served(without_hub(rt, alloc, &size, timed)),
        _ => Err(LineFault::Kind),
    }
}
