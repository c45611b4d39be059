//! The hub of a play is closed.
ghost use Rattle.std.specs.Prelude.{◌≡◌, ◌≤◌, false, length, map, IfOk, Some};
ghost use Rattle.std.specs.List.{All};
ghost use Rattle.calculus.specs.Runs.{work_price};
ghost use Rattle.group_locks.specs.Seats.{limit_of, seat_count, spent_of};
ghost use Rattle.play_pool.specs.Closing.{ClosesPlay, IsThrough};

use group_locks::{Closed, Hub, Seat, StopCause};
use play_hub::{PlayScene, PlayTerms};
use shard_tables::ShardTables;
use std::alloc::AllocError;

// Whether a hub stopped for want of memory.
fn is_want_of_memory(stop: Option<StopCause>) -> bool
    ensures { result ≡ false → stop ≡ Some StopCause.NoMemory → ⊥ }
{
    matches!(stop, Some(StopCause::NoMemory))
}

/// Closes the hub of a play whose workers have ended. A hub that stopped for want of memory is want of memory, which is the one error.
pub(crate) fn close_play<J: PlayTerms + Sync, T: ShardTables + Sync>(
    hub: Hub<PlayScene<J, T>>,
    seats: Vec<Seat<PlayScene<J, T>>>,
    workers: u32,
) -> Result<Closed<PlayScene<J, T>>, AllocError>
    requires seats { All (λ s. IsThrough hub.table.shared.table_id s.state) seats.items }
    requires workers { (1 ≤ workers) × (length seats.items ≡ workers) × (seat_count hub.table.shared.key ≡ workers) }
    requires terms { (spent_of hub.table.shared.key ≡ work_price J.deploy.limit J.source) ×
        (limit_of hub.table.shared.key ≡ J.deploy.limit) }
    requires comm { 1 ≤ J.deploy.prices.comm }
    ensures shards { IfOk result (λ r. length r.shards.items ≡ 64) }
    ensures closes { IfOk result (λ r. ClosesPlay J.deploy J.source workers r.entries.items (map T.rows r.shards.items) r.charged) }
{
    let _ = workers;
    let Ok(closed) = hub.close(seats) else {
        return Err(AllocError);
    };
    if is_want_of_memory(closed.stop) {
        return Err(AllocError);
    }
    Ok(closed)
}
