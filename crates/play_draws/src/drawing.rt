//! Entries of an operation, drawn with the shards in hand.
ghost use Rattle.std.specs.Prelude.{◌≡◌, ◌+◌, ◌-◌, ◌%◌, ◌^◌, List, [], drop, map, IfOk, OnErr};
ghost use Rattle.calculus.specs.Rows.{Row as Stored};
ghost use Rattle.calculus.specs.Steps.{is_one_of};
ghost use Rattle.hub_rule.specs.Counts.{one_if};
ghost use Rattle.group_locks.specs.Seats.{home_of, held_by, since_of, drawn_by, HasLeave, HasRoom};
ghost use Rattle.found_rows.specs.AtHand.{MeetsAtHand};
ghost use Rattle.play_draws.specs.Making.{IsReady, Serves};
ghost use Rattle.play_draws.specs.Turns.{HandCarries, HasTaken, HasWork, HoldsGroup, IsDrawn, IsReadyInHand, IsSame, MeetsNothingInHand};

use crate::making::{Ready, StepMaker};
use crate::taken::Taken;
use calculus::Digest;
use found_rows::Found;
use group_locks::{Hub, Seat};
use play_hub::{PlayEntry, PlayScene, PlayTerms};
use shard_tables::ShardTables;
use space_row::Row;
use std::alloc::{AllocError, Global};
use std::snapshot::Snapshot;

/// What is told of an entry that was drawn.
#[derive(Drop)]
pub struct Drawn {
    /// What it costs.
    pub price: u64,
    /// Its body has a fault.
    pub faulty: bool,
    /// It ended the work of its operation.
    pub ends: bool,
    /// What its body offers.
    pub offers: Vec<Row>,
    /// How often its step was made, where nothing left by it.
    pub again: Option<u32>,
}

// Draws that the operation was stored, where it meets nothing in hand. Where memory is wanting all is as it was.
fn draw_stored<J: PlayTerms + Sync, T: ShardTables + Sync>(
    alloc: Global,
    hub: &Hub<PlayScene<J, T>>,
    seat: &mut Seat<PlayScene<J, T>>,
    held: &mut T::Held,
    taken: Taken,
    group: u64,
) -> Result<Drawn, AllocError>
    requires hub { home_of seat.old.state ≡ hub.now.table.shared.table_id }
    requires work { HasWork taken.op.now taken.from seat.old.state }
    requires leave { HasLeave seat.old.state × HasRoom seat.old.state }
    requires group { HoldsGroup T.rows J.deploy J.source taken.op.now group (held_by seat.old.state) (T.in_hand held.old) }
    requires since { since_of seat.old.state ≡ [] }
    requires lonely { MeetsNothingInHand T.rows (T.in_hand held.old) taken.op.now }
    ensures hand { HandCarries T.rows J.deploy J.source (since_of seat.new.state) (held_by seat.new.state) (T.in_hand held.new) }
    ensures drawn { IfOk result (IsDrawn taken.entry.from seat.old.state seat.new.state) }
    ensures same { OnErr result (IsSame seat.old.state seat.new.state) }
{
    T::put(alloc, held, taken.op)?;
    let entry = PlayEntry {
        operation: Snapshot::of(taken.op),
        made: None,
        touched: group,
    };
    seat.commit(hub, held, entry, u64::MAX);
    Ok(Drawn {
        price: 0,
        faulty: false,
        ends: true,
        offers: Vec::new(alloc),
        again: None,
    })
}

// Whether an id is one of these.
fn is_one_of(id: &Digest, ids: &[Digest]) -> bool
    ensures { result ≡ is_one_of id.now.0 (map (λ d. d.0) ids.now) }
{
    for other in ids {
        if id == other {
            return true;
        }
    }
    false
}

// How many works an entry offers less the one that it ends, if it ends one, modulo 2^64.
fn more_works(count: usize, ends: bool) -> u64
    ensures { result ≡ (count + (2 ^ 64 - one_if ends)) % 2 ^ 64 }
{
    (count as u64).wrapping_sub(ends as u64)
}

// Draws a step of the operation with what was found in hand.
fn draw_ready<J: PlayTerms + Sync, T: ShardTables + Sync>(
    hub: &Hub<PlayScene<J, T>>,
    seat: &mut Seat<PlayScene<J, T>>,
    held: &mut T::Held,
    taken: Taken,
    group: u64,
    ready: Ready,
) -> Drawn
    requires hub { home_of seat.old.state ≡ hub.now.table.shared.table_id }
    requires work { HasWork taken.op.now taken.from seat.old.state }
    requires leave { HasLeave seat.old.state × HasRoom seat.old.state }
    requires group { HoldsGroup T.rows J.deploy J.source taken.op.now group (held_by seat.old.state) (T.in_hand held.old) }
    requires since { since_of seat.old.state ≡ [] }
    requires ready { IsReadyInHand T.rows J.deploy (T.in_hand held.old) taken.op.now (drop taken.from (drawn_by seat.old.state)) ready }
    ensures hand { HandCarries T.rows J.deploy J.source (since_of seat.new.state) (held_by seat.new.state) (T.in_hand held.new) }
    ensures drawn { IsDrawn taken.entry.from seat.old.state seat.new.state result }
{
    let Ready {
        made,
        gone,
        offers,
        again,
    } = ready;
    T::take_out(held, gone.as_slice());
    let ends = is_one_of(&taken.op.id(), gone.as_slice());
    let more = more_works(offers.len(), ends);
    let price = made.price;
    let faulty = made.fault.is_some();
    let entry = PlayEntry {
        operation: Snapshot::of(taken.op),
        made: Some(made),
        touched: group,
    };
    seat.commit(hub, held, entry, more);
    Drawn {
        price,
        faulty,
        ends,
        offers,
        again,
    }
}

// The step of the operation in hand with what was found, ready to be drawn. Want of memory is the one error.
fn ready_step<M: StepMaker, J: PlayTerms + Sync, T: ShardTables + Sync>(
    alloc: Global,
    maker: &M,
    seat: &Seat<PlayScene<J, T>>,
    taken: Taken,
    found: Found,
) -> Result<Ready, AllocError>
    requires maker { Serves (M.prices maker.now) (M.limit maker.now) J.deploy }
    requires work { HasTaken taken.op.now taken.from taken.again seat.now.state }
    requires found { (all : List Stored) × (o : Stored) × MeetsAtHand all o found }
    ensures { IfOk result (IsReady J.deploy.prices J.deploy.limit found (drop taken.entry.from (drawn_by seat.now.state))) }
{
    let drawn = seat.drawn();
    maker.make(alloc, found, &drawn[taken.from..], taken.again)
}

/// Draws one entry of the operation: a step with what it meets in hand, or that it was stored where it meets nothing. Where memory is
/// wanting all is as it was.
pub fn draw<M: StepMaker, J: PlayTerms + Sync, T: ShardTables + Sync>(
    alloc: Global,
    maker: &M,
    hub: &Hub<PlayScene<J, T>>,
    seat: &mut Seat<PlayScene<J, T>>,
    held: &mut T::Held,
    taken: Taken,
    group: u64,
) -> Result<Drawn, AllocError>
    requires hub { home_of seat.old.state ≡ hub.now.table.shared.table_id }
    requires work { HasTaken taken.op.now taken.from taken.again seat.old.state }
    requires leave { HasLeave seat.old.state × HasRoom seat.old.state }
    requires group { HoldsGroup T.rows J.deploy J.source taken.op.now group (held_by seat.old.state) (T.in_hand held.old) }
    requires since { since_of seat.old.state ≡ [] }
    requires maker { Serves (M.prices maker.now) (M.limit maker.now) J.deploy }
    ensures hand { HandCarries T.rows J.deploy J.source (since_of seat.new.state) (held_by seat.new.state) (T.in_hand held.new) }
    ensures drawn { IfOk result (IsDrawn taken.entry.from seat.old.state seat.new.state) }
    ensures same { OnErr result (IsSame seat.old.state seat.new.state) }
{
    match T::first_step(alloc, held, taken.op)? {
        None => draw_stored(alloc, hub, seat, held, taken, group),
        Some(found) => {
            let ready = ready_step(alloc, maker, seat, taken, found)?;
            Ok(draw_ready(hub, seat, held, taken, group, ready))
        }
    }
}
