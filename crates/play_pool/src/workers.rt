//! The workers of a play, side by side.
ghost use Rattle.std.specs.Prelude.{◌≡◌, ◌≤◌, length, IfOk};
ghost use Rattle.std.specs.List.{All};
ghost use Rattle.group_locks.specs.Seats.{IsIdle};
ghost use Rattle.play_draws.specs.Making.{Serves};
ghost use Rattle.play_pool.specs.Closing.{IsThrough};

use group_locks::{Hub, Seat};
use numbered_jobs::side_by_side;
use play_draws::making::StepMaker;
use play_hub::{PlayScene, PlayTerms};
use play_worker::site::Site;
use play_worker::worker::work_through;
use rho_outside::Gate;
use shard_tables::ShardTables;
use std::alloc::{AllocError, Global};
use std::sync::Wait;
use std::thread::Threads;

/// Does all works of a hub, each seat in a thread of its own. Want of memory is the one error.
pub(crate) fn work_all<
    M: StepMaker + Sync,
    J: PlayTerms + Sync,
    T: ShardTables + Sync,
    R: Threads + Wait + Sync,
    G: Gate + Sync,
>(
    rt: &R,
    alloc: Global,
    gate: &G,
    maker: &M,
    hub: &Hub<PlayScene<J, T>>,
    seats: Vec<Seat<PlayScene<J, T>>>,
) -> Result<Vec<Seat<PlayScene<J, T>>>, AllocError>
    requires few { length seats.items ≤ 32 }
    requires seats { All (λ s. IsIdle hub.now.table.shared.table_id s.state) seats.items }
    requires maker { Serves (M.prices maker.now) (M.limit maker.now) J.deploy }
    ensures count { IfOk result (λ v. length v.items ≡ length seats.items) }
    ensures each { IfOk result (λ v. All (λ s. IsThrough hub.now.table.shared.table_id s.state) v.items) }
{
    side_by_side(
        rt,
        alloc,
        seats,
        &|worker: u32, seat: Seat<PlayScene<J, T>>| -> Seat<PlayScene<J, T>>
            requires { IsIdle hub.now.table.shared.table_id seat.state
                × Serves (M.prices maker.now) (M.limit maker.now) J.deploy }
            ensures { IsThrough hub.entry.now.table.shared.table_id result.state }
        {
            let site = Site {
                rt,
                alloc,
                gate,
                worker,
            };
            work_through(&site, maker, hub, seat)
        },
    )
}
