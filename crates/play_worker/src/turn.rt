//! One turn of a worker at the operation that it has in hand.
ghost use Rattle.std.specs.Prelude.{◌≡◌, ◌<◌, ℕ, [], Option, None};
ghost use Rattle.group_locks.specs.Seats.{due_of, hand_of, stops_of, AtRest, HasLeave, HasRoom};
ghost use Rattle.play_draws.specs.Making.{Serves};
ghost use Rattle.play_draws.specs.Turns.{HasTaken, HasWork, IsDrawn};

use crate::group::take_shown;
use crate::site::Site;
use group_locks::{Hub, Seat, StopCause};
use play_draws::drawing::{Drawn, draw};
use play_draws::making::StepMaker;
use play_draws::taken::Taken;
use play_hub::{PlayScene, PlayTerms};
use rho_outside::{Gate, Moment};
use shard_tables::ShardTables;
use std::alloc::AllocError;
use std::sync::Wait;

/// What a turn came to.
#[derive(Drop, Clone, Copy)]
pub enum Turn {
    /// The hub stops, for what this turn came to.
    Over,
    /// The operation was stored, or left by its step.
    Done,
    /// The operation stays in hand. So often its last step was made, where nothing left by it.
    More(Option<u32>),
}

// Charges what was drawn, and leaves what it offers. A fault, or want of memory, stops the hub.
fn settle<R: Wait, J: PlayTerms + Sync, T: ShardTables + Sync>(
    rt: &R,
    hub: &Hub<PlayScene<J, T>>,
    seat: &mut Seat<PlayScene<J, T>>,
    taken: Taken,
    drawn: Drawn,
) -> Turn
    requires rest { AtRest hub.now.table.shared.table_id seat.old.state }
    requires drawn { (before : _) × HasWork taken.op.now taken.from before × IsDrawn taken.from before seat.old.state drawn }
    ensures rest { AtRest hub.now.table.shared.table_id seat.new.state × (due_of seat.new.state ≡ []) }
    ensures over { result ≡ Turn.Over → 0 < stops_of seat.new.state }
    ensures done { result ≡ Turn.Done → hand_of seat.new.state ≡ [] }
    ensures more { (again : Option ℕ) → result ≡ Turn.More again → HasTaken taken.entry.op.now taken.entry.from again seat.new.state }
{
    let _ = taken;
    let Drawn {
        price,
        faulty,
        ends,
        offers,
        again,
    } = drawn;
    seat.charge(hub, price);
    if faulty {
        seat.stop(hub, StopCause::Fault);
        return Turn::Over;
    }
    let Ok(()) = seat.leave_ops(rt, hub, offers) else {
        seat.stop(hub, StopCause::NoMemory);
        return Turn::Over;
    };
    if ends { Turn::Done } else { Turn::More(again) }
}

/// One turn at the operation in hand: the shards that it needs are taken, an entry is drawn with them, they are given home, and the
/// entry is charged. The gate is passed as soon as the shards are in hand, and again when they are home.
pub fn take_turn<R: Wait, G: Gate, M: StepMaker, J: PlayTerms + Sync, T: ShardTables + Sync>(
    site: &Site<R, G>,
    maker: &M,
    hub: &Hub<PlayScene<J, T>>,
    seat: &mut Seat<PlayScene<J, T>>,
    held: &mut T::Held,
    taken: Taken,
) -> Turn
    requires rest { AtRest hub.now.table.shared.table_id seat.old.state }
    requires empty { (k : ℕ) → T.in_hand held.old k ≡ None }
    requires work { HasTaken taken.op.now taken.from taken.again seat.old.state }
    requires leave { HasLeave seat.old.state × HasRoom seat.old.state }
    requires maker { Serves (M.prices maker.now) (M.limit maker.now) J.deploy }
    ensures rest { AtRest hub.now.table.shared.table_id seat.new.state × (due_of seat.new.state ≡ []) }
    ensures empty { (k : ℕ) → T.in_hand held.new k ≡ None }
    ensures over { result ≡ Turn.Over → 0 < stops_of seat.new.state }
    ensures done { result ≡ Turn.Done → hand_of seat.new.state ≡ [] }
    ensures more { (next : Option ℕ) → result ≡ Turn.More next → HasTaken taken.entry.op.now taken.entry.from next seat.new.state }
{
    let Ok(shards) = take_shown(site.rt, site.alloc, hub, seat, held, taken.op) else {
        seat.stop(hub, StopCause::NoMemory);
        return Turn::Over;
    };
    site.pass(Moment::Held { shards });
    let drawn = draw(site.alloc, maker, hub, seat, held, taken, shards);
    seat.give_group(hub, held);
    site.pass(Moment::Freed { shards });
    match drawn {
        Ok(drawn) => settle(site.rt, hub, seat, taken, drawn),
        Err(AllocError) => {
            seat.stop(hub, StopCause::NoMemory);
            Turn::Over
        }
    }
}
