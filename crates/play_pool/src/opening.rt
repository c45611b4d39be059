//! The hub of a play is opened.
ghost use Rattle.std.specs.Prelude.{◌≡◌, ◌<◌, ◌≤◌, ◌^◌, length, IfOk};
ghost use Rattle.std.specs.List.{All};
ghost use Rattle.calculus.specs.Runs.{work_products};
ghost use Rattle.calculus.specs.Unfolding.{rows_of};
ghost use Rattle.group_locks.specs.Seats.{limit_of, seat_count, spent_of, IsIdle};

use group_locks::{Hub, Pool, Terms};
use play_hub::{PlayScene, PlayTerms};
use shard_tables::ShardTables;
use space_row::Row;
use std::alloc::{AllocError, Global};

// The most works with which a hub may open.
const MOST_WORKS: usize = 1 << 58;

/// A hub over the 64 shards of the base, with what the source offers and with what it cost. Want of memory is the one error.
pub(crate) fn open_play<J: PlayTerms + Sync, T: ShardTables + Sync>(
    alloc: Global,
    base: Vec<Row>,
    offers: Vec<Row>,
    workers: u32,
    price: u64,
    limit: u64,
) -> Result<Pool<PlayScene<J, T>>, AllocError>
    requires workers { (1 ≤ workers) × (workers ≤ 32) }
    requires low { (price < 2 ^ 62) × (limit < 2 ^ 62) }
    requires base { J.deploy.rows ≡ base.items }
    requires offers { offers.items ≡ rows_of (work_products J.source) }
    ensures idle { IfOk result (λ p. All (λ s. IsIdle p.hub.table.shared.table_id s.state) p.seats.items) }
    ensures count { IfOk result (λ p. (length p.seats.items ≡ workers) × (seat_count p.hub.table.shared.key ≡ workers)) }
    ensures terms { IfOk result (λ p. (spent_of p.hub.table.shared.key ≡ price) × (limit_of p.hub.table.shared.key ≡ limit)) }
{
    if offers.len() > MOST_WORKS {
        return Err(AllocError);
    }
    let scene = PlayScene::new();
    let shards = T::shards(alloc, base)?;
    let terms = Terms {
        seats: workers,
        spent: price,
        limit,
    };
    Hub::start(alloc, scene, shards, offers, terms)
}
