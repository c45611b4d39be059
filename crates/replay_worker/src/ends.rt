// How a job ends.
ghost use Rattle.std.specs.Prelude.{◌≡◌, ℕ, [], None, IfSome};
ghost use Rattle.group_locks.specs.Seats.{due_of, AtRest};
ghost use Rattle.replay_hub.specs.Values.{values};
ghost use Rattle.replay_worker.specs.Seats.{HasDrawn, HasEnded, HasInHand};

use crate::site::Site;
use group_locks::{Hub, Seat, StopCause};
use replay_hub::{ReplayScene, ReplayTerms, Task};
use rho_outside::{Gate, Moment};
use std::sync::Wait;

/// Stops the hub for want of memory. It is always false.
pub(crate) fn give_up<J: ReplayTerms + Sync>(
    hub: &Hub<ReplayScene<J>>,
    seat: &mut Seat<ReplayScene<J>>,
) -> bool
    requires seat { AtRest hub.now.table.shared.table_id seat.old.state × (due_of seat.old.state ≡ []) }
    ensures { HasEnded hub.now.table.shared.table_id result seat.new.state }
{
    seat.stop(hub, StopCause::NoMemory);
    false
}

/// Gives the shards in hand home, which have these bits, passes the gate, and leaves the jobs that the entry drawn with them
/// offered. False where memory was wanting, for the entry, which is None then, or for these; the hub is then stopped.
pub(crate) fn go_home<J: ReplayTerms + Sync, R: Wait, G: Gate>(
    site: &Site<R, G>,
    hub: &Hub<ReplayScene<J>>,
    seat: &mut Seat<ReplayScene<J>>,
    held: &mut J::Held,
    shards: u64,
    drawn: Option<Vec<Task<J::Row, J::Channel>>>,
) -> bool
    requires holds { HasInHand (values J.deploy J.steps J.row_of J.channel_of J.part_of) hub.now.table.shared.table_id
        seat.old.state (J.in_hand held.old) }
    requires drawn { IfSome drawn (λ tasks. HasDrawn tasks.items seat.old.state) }
    ensures ended { HasEnded hub.now.table.shared.table_id result seat.new.state }
    ensures empty { (k : ℕ) → J.in_hand held.new k ≡ None }
{
    seat.give_group(hub, held);
    site.pass(Moment::Freed { shards });
    let Some(tasks) = drawn else {
        return give_up(hub, seat);
    };
    match seat.leave_ops(site.rt, hub, tasks) {
        Ok(()) => true,
        Err(_unleft) => give_up(hub, seat),
    }
}
