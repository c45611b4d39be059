//! The shards of an operation, in hand.
ghost use Rattle.std.specs.Prelude.{◌≡◌, ℕ, [], None, IfOk, OnErr, OnOk};
ghost use Rattle.group_locks.specs.Seats.{home_of, held_by, since_of};
ghost use Rattle.play_draws.specs.Turns.{HoldsGroup, IsSame};

use group_locks::{Hub, Seat};
use play_hub::{PlayScene, PlayTerms};
use shard_tables::ShardTables;
use space_row::Row;
use std::alloc::{AllocError, Global};
use std::sync::Wait;

/// Takes the shards of the operation's channels in hand, and then all that their rows show for it, until each that is shown is in hand.
/// The answer has their bits. A group that is too small is given home before a larger one is taken, so it grows, and is taken at most 65
/// times. Want of memory is the one error, and no shard is then in hand.
pub fn take_shown<R: Wait, J: PlayTerms + Sync, T: ShardTables + Sync>(
    rt: &R,
    alloc: Global,
    hub: &Hub<PlayScene<J, T>>,
    seat: &mut Seat<PlayScene<J, T>>,
    held: &mut T::Held,
    op: &Row,
) -> Result<u64, AllocError>
    requires hub { home_of seat.old.state ≡ hub.now.table.shared.table_id }
    requires free { held_by seat.old.state ≡ [] }
    requires empty { (k : ℕ) → T.in_hand held.old k ≡ None }
    ensures same { IsSame seat.old.state seat.new.state }
    ensures here { IfOk result (λ group. HoldsGroup T.rows J.deploy J.source op.now group (held_by seat.new.state) (T.in_hand held.new)) }
    ensures since { OnOk result (since_of seat.new.state ≡ []) }
    ensures back { OnErr result ((held_by seat.new.state ≡ []) × ((k : ℕ) → T.in_hand held.new k ≡ None)) }
{
    let mut group = T::shards_of(alloc, held, op)?;
    loop {
        seat.take_group(rt, hub, held, group);
        let more = match T::shards_of(alloc, held, op) {
            Ok(shown) => group | shown,
            Err(e) => {
                seat.give_group(hub, held);
                return Err(e);
            }
        };
        if more == group {
            return Ok(group);
        }
        seat.give_group(hub, held);
        group = more;
    }
}
