//! A worker, from its first operation to an end.
ghost use Rattle.std.specs.Prelude.{◌≡◌, ℕ, [], true, false, length, None};
ghost use Rattle.group_locks.specs.Seats.{drawn_by, due_of, hand_of, AtRest, IsIdle, HasLeave, HasRoom};
ghost use Rattle.play_draws.specs.Making.{Serves};
ghost use Rattle.play_draws.specs.Turns.{HasCause, HasWork};

use crate::site::Site;
use crate::turn::{Turn, take_turn};
use group_locks::{Hub, Seat, StopCause};
use play_draws::making::StepMaker;
use play_draws::taken::Taken;
use play_hub::{PlayScene, PlayTerms};
use rho_outside::Gate;
use shard_tables::ShardTables;
use space_row::Row;
use std::sync::Wait;

// Room and leave for a further entry. Where memory is wanting the hub stops.
fn may_draw_more<J: PlayTerms + Sync, T: ShardTables + Sync>(
    hub: &Hub<PlayScene<J, T>>,
    seat: &mut Seat<PlayScene<J, T>>,
    op: &Row,
    from: usize,
) -> bool
    requires rest { AtRest hub.now.table.shared.table_id seat.old.state }
    requires work { HasWork op.now from seat.old.state }
    ensures rest { AtRest hub.now.table.shared.table_id seat.new.state × (due_of seat.new.state ≡ []) }
    ensures drawn { drawn_by seat.new.state ≡ drawn_by seat.old.state }
    ensures work { result ≡ true → HasWork op.now from seat.new.state × (HasLeave seat.new.state × HasRoom seat.new.state) }
    ensures cause { result ≡ false → HasCause seat.new.state }
{
    let _ = op;
    let _ = from;
    let Ok(()) = seat.again(hub) else {
        seat.stop(hub, StopCause::NoMemory);
        return false;
    };
    seat.may_go(hub)
}

/// Works on the operation in hand until it is stored or leaves. False where an end was found before.
pub fn work_on<R: Wait, G: Gate, M: StepMaker, J: PlayTerms + Sync, T: ShardTables + Sync>(
    site: &Site<R, G>,
    maker: &M,
    hub: &Hub<PlayScene<J, T>>,
    seat: &mut Seat<PlayScene<J, T>>,
    held: &mut T::Held,
    op: &Row,
) -> bool
    requires rest { AtRest hub.now.table.shared.table_id seat.old.state }
    requires empty { (k : ℕ) → T.in_hand held.old k ≡ None }
    requires work { HasWork op.now (length (drawn_by seat.old.state)) seat.old.state }
    requires leave { HasLeave seat.old.state × HasRoom seat.old.state }
    requires maker { Serves (M.prices maker.now) (M.limit maker.now) J.deploy }
    ensures rest { AtRest hub.now.table.shared.table_id seat.new.state × (due_of seat.new.state ≡ []) }
    ensures empty { (k : ℕ) → T.in_hand held.new k ≡ None }
    ensures done { result ≡ true → hand_of seat.new.state ≡ [] }
    ensures cause { result ≡ false → HasCause seat.new.state }
{
    let from = seat.drawn().len();
    let mut again = None;
    for _ in site.rt.forever() {
        let taken = Taken { op, from, again };
        match take_turn(site, maker, hub, seat, held, taken) {
            Turn::Over => return false,
            Turn::Done => return true,
            Turn::More(next) => again = next,
        }
        if !may_draw_more(hub, seat, op, from) {
            return false;
        }
    }
    unreachable!()
}

/// Takes operations and works on them until the seat finds an end. It then holds no shard, and has charged all that it drew. Where there
/// is no memory for the shards in hand, the hub stops.
pub fn work_through<R: Wait, G: Gate, M: StepMaker, J: PlayTerms + Sync, T: ShardTables + Sync>(
    site: &Site<R, G>,
    maker: &M,
    hub: &Hub<PlayScene<J, T>>,
    seat: Seat<PlayScene<J, T>>,
) -> Seat<PlayScene<J, T>>
    requires seat { IsIdle hub.now.table.shared.table_id seat.state }
    requires maker { Serves (M.prices maker.now) (M.limit maker.now) J.deploy }
    ensures rest { AtRest hub.now.table.shared.table_id result.state × (due_of result.state ≡ []) }
    ensures cause { HasCause result.state }
{
    let mut seat = seat;
    let Ok(held) = T::hand(site.alloc) else {
        seat.stop(hub, StopCause::NoMemory);
        return seat;
    };
    let mut held = held;
    for _ in site.rt.forever() {
        let Some(op) = seat.take_op(site.rt, hub) else {
            return seat;
        };
        if !work_on(site, maker, hub, &mut seat, &mut held, &op) {
            return seat;
        }
    }
    unreachable!()
}
