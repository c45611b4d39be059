//! The round of one worker.
ghost use Rattle.std.specs.Prelude.{◌≡◌, ℕ, None};
ghost use Rattle.group_locks.specs.Seats.{AtRest, IsIdle};
ghost use Rattle.replay_hub.specs.Ends.{FoundAnEnd};
ghost use Rattle.replay_worker.specs.Seats.{HasEnded, IsReady};

use crate::arrival::bring_in;
use crate::site::Site;
use crate::tables::ReplayTables;
use crate::trying::try_step;
use group_locks::{Hub, Seat, StopCause};
use replay_hub::{ReplayScene, Task};
use rho_outside::Gate;
use std::sync::Wait;

// Does one job, and leaves those that follow. False where memory was wanting; the hub is then stopped.
fn do_task<J: ReplayTables + Sync, R: Wait, G: Gate>(
    site: &Site<R, G>,
    tables: &J,
    hub: &Hub<ReplayScene<J>>,
    seat: &mut Seat<ReplayScene<J>>,
    held: &mut J::Held,
    task: Task<J::Row, J::Channel>,
) -> bool
    requires knows { J.knows tables.now }
    requires ready { IsReady hub.now.table.shared.table_id task seat.old.state (J.in_hand held.old) }
    ensures ended { HasEnded hub.now.table.shared.table_id result seat.new.state }
    ensures empty { (k : ℕ) → J.in_hand held.new k ≡ None }
{
    match task {
        Task::Arrive(coming) => bring_in(site, tables, hub, seat, held, coming),
        Task::Index(tried) => try_step(site, tables, hub, seat, held, tried),
    }
}

/// Does jobs of a hub until nothing is pending or the hub stops. It stops the hub where memory is wanting. The worker of this number
/// passes the gate before each entry that it draws, and again when the shards are home.
pub fn work_through<J: ReplayTables + Sync, R: Wait, G: Gate>(
    site: &Site<R, G>,
    tables: &J,
    hub: &Hub<ReplayScene<J>>,
    seat: Seat<ReplayScene<J>>,
) -> Seat<ReplayScene<J>>
    requires knows { J.knows tables.now }
    requires seat { IsIdle hub.now.table.shared.table_id seat.state }
    ensures rest { AtRest hub.now.table.shared.table_id result.state }
    ensures cause { FoundAnEnd result.state }
{
    let mut seat = seat;
    let Ok(mut held) = tables.hand(site.alloc) else {
        seat.stop(hub, StopCause::NoMemory);
        return seat;
    };
    for _ in site.rt.forever() {
        let Some(task) = seat.take_op(site.rt, hub) else {
            return seat;
        };
        if !do_task(site, tables, hub, &mut seat, &mut held, task) {
            return seat;
        }
    }
    unreachable!()
}
