//! Seats that do the works of the scene of numbers.
ghost use Rattle.std.specs.Prelude.{◌≡◌, ℕ, ◌<◌, true, [], ◌+◌, ◌-◌, ◌%◌, ◌^◌, ◌∷◌, None, Some, IfOk, length, slice_index_or, slice_get};
ghost use Rattle.std.specs.List.{All};
ghost use Rattle.hub_rule.specs.Counts.{count, things_of};
ghost use Rattle.hub_rule.specs.Rule.{Carries};
ghost use Rattle.group_locks.specs.Seats.{home_of, held_by, since_of, due_of, hand_of, taken_by, offered_by, HasLeave, HasRoom, AtRest, IsIdle};
ghost use Rattle.hub_runs.specs.Numbers.{numbers, touches, offer};

use crate::numbers::{Hand, Numbers};
use group_locks::{Hub, Scene, Seat};
use std::alloc::{AllocError, Global};
use std::sync::Wait;
use std::thread;
use std::thread::Threads;

/// How many rounds of arithmetic a seat does at each work.
#[derive(Drop, Clone, Copy)]
pub struct Busy {
    /// While it holds the turn of the work's shard.
    pub inside: u64,
    /// After it gave the turn back.
    pub outside: u64,
}

/// Where a seat works: the runtime by which it waits, memory, and how many rounds of arithmetic it does at each work.
#[derive(Drop)]
pub struct Site<'a, R> {
    pub rt: &'a R,
    pub alloc: Global,
    pub busy: Busy,
}

/// So many rounds of arithmetic, in which no number follows from a formula. From a seed above 0 it never comes to 0.
pub fn spin(rounds: u64, seed: u64) -> u64 {
    let mut x = seed;
    for _ in 0..rounds {
        x ^= x << 13;
        x ^= x >> 7;
        x ^= x << 17;
    }
    x
}
// Draws the work, where its number is in hand and has space.
fn draw_work(hub: &Hub<Numbers>, seat: &mut Seat<Numbers>, hand: &mut Hand, work: u64) -> bool
    requires hub { home_of seat.old.state ≡ hub.now.table.shared.table_id }
    requires leave { HasLeave seat.old.state × HasRoom seat.old.state }
    requires charged { due_of seat.old.state ≡ [] }
    requires work { (index : ℕ) × (taken_by seat.old.state ≡ (index, work) ∷ []) × (offered_by seat.old.state ≡ []) }
    requires within { (k : ℕ) → touches work k ≡ true → 0 < count k (held_by seat.old.state) }
    requires since { since_of seat.old.state ≡ [] }
    requires carries { Carries numbers [] (held_by seat.old.state) (λ k. slice_index_or hand.old.rows k None) }
    ensures hub { home_of seat.new.state ≡ home_of seat.old.state }
    ensures carries { Carries numbers (since_of seat.new.state) (held_by seat.new.state) (λ k. slice_index_or hand.new.rows k None) }
    ensures charged { due_of seat.new.state ≡ [] }
    ensures drawn { result ≡ true → (taken_by seat.new.state ≡ []) × (things_of (offered_by seat.new.state) ≡ offer work) }
{
    let number = (work % 64) as u32;
    let Some(x) = hand.get(number) else {
        return false;
    };
    if x >= u64::MAX {
        return false;
    }
    hand.put(number, x + 1);
    seat.commit(hub, hand, work, more_works(work));
    seat.charge(hub, 1);
    true
}

// How many works a work offers less the one that it ends, modulo 2^64.
fn more_works(work: u64) -> u64
    ensures { result ≡ (length (offer work) + (2 ^ 64 - 1)) % 2 ^ 64 }
{
    if work < 64 { u64::MAX } else { 0 }
}

/// Does one work under the turn of its shard, and leaves the work that it offers. False where memory was wanting.
pub fn do_work<R: Wait>(
    site: &Site<R>,
    hub: &Hub<Numbers>,
    seat: &mut Seat<Numbers>,
    hand: &mut Hand,
    work: u64,
) -> bool
    requires seat { AtRest hub.now.table.shared.table_id seat.old.state × (due_of seat.old.state ≡ []) }
    requires leave { HasLeave seat.old.state × HasRoom seat.old.state }
    requires work { (index : ℕ) × (taken_by seat.old.state ≡ (index, work) ∷ []) × (offered_by seat.old.state ≡ []) }
    requires empty { (k : ℕ) → slice_index_or hand.old.rows k None ≡ None }
    ensures seat { AtRest hub.now.table.shared.table_id seat.new.state × (due_of seat.new.state ≡ []) }
    ensures empty { (k : ℕ) → slice_index_or hand.new.rows k None ≡ None }
    ensures left { result ≡ true → hand_of seat.new.state ≡ [] }
{
    let Ok(ops) = offered_works(site.alloc, work) else {
        return false;
    };
    seat.take_group(site.rt, hub, hand, Numbers.touches(&work));
    let mixed = spin(site.busy.inside, (work % 64) + 1);
    let drawn = draw_work(hub, seat, hand, work);
    seat.give_group(hub, hand);
    if !drawn {
        return false;
    }
    let Ok(()) = seat.leave_ops(site.rt, hub, ops) else {
        return false;
    };
    spin(site.busy.outside, mixed) != 0
}

// The works that a work offers.
fn offered_works(alloc: Global, work: u64) -> Result<Vec<u64>, AllocError>
    ensures { IfOk result (λ v. v.items ≡ offer work) }
{
    let mut ops = Vec::new(alloc);
    if work < 64 {
        return Ok(ops);
    }
    ops.push(work - 64)?;
    Ok(ops)
}

// Does works until there is an end.
fn work_through<R: Wait>(
    site: &Site<R>,
    hub: &Hub<Numbers>,
    mut seat: Seat<Numbers>,
) -> Seat<Numbers>
    requires { IsIdle hub.now.table.shared.table_id seat.state }
    ensures { AtRest hub.now.table.shared.table_id result.state }
{
    let mut hand = Hand::empty();
    for _ in site.rt.forever() {
        let Some(work) = seat.take_op(site.rt, hub) else {
            return seat;
        };
        if !do_work(site, hub, &mut seat, &mut hand, work) {
            return seat;
        }
    }
    unreachable!()
}

/// Does all works of a hub, each seat in a thread of its own.
pub fn side_by_side<R: Threads + Wait + Sync>(
    rt: &R,
    alloc: Global,
    hub: &Hub<Numbers>,
    seats: Vec<Seat<Numbers>>,
    busy: Busy,
) -> Result<Vec<Seat<Numbers>>, AllocError>
    requires { All (λ s. IsIdle hub.now.table.shared.table_id s.state) seats.items }
    ensures count { IfOk result (λ v. length v.items ≡ length seats.items) }
    ensures each { IfOk result (λ v. All (λ s. AtRest hub.now.table.shared.table_id s.state) v.items) }
{
    thread::map_vec(
        rt,
        seats,
        &|seat: Seat<Numbers>| -> Seat<Numbers>
            requires { IsIdle hub.now.table.shared.table_id seat.state }
            ensures { AtRest hub.entry.now.table.shared.table_id result.state }
        {
            let site = Site { rt, alloc, busy };
            work_through(&site, hub, seat)
        },
    )
}

/// The 64 numbers with which a hub opens, all 0.
pub fn zeros(alloc: Global) -> Result<Vec<u64>, AllocError>
    ensures count { IfOk result (λ v. length v.items ≡ 64) }
    ensures zero { IfOk result (λ v. (k : ℕ) (x : ℕ) → slice_get v.items k ≡ Some x → 0 ≡ x) }
{
    vec![in alloc; 0u64; 64]
}
