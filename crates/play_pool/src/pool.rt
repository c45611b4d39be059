//! A play by many workers, from shards to entries.
ghost use Rattle.std.specs.Prelude.{◌≡◌, ◌<◌, ◌≤◌, ◌^◌, length, map, IfOk};
ghost use Rattle.calculus.specs.Runs.{work_price, work_products};
ghost use Rattle.calculus.specs.Unfolding.{rows_of};
ghost use Rattle.play_draws.specs.Making.{Serves};
ghost use Rattle.play_pool.specs.Closing.{ClosesPlay};

use crate::closing::close_play;
use crate::opening::open_play;
use crate::workers::work_all;
use group_locks::{Closed, Pool};
use numbered_jobs::Crew;
use play_draws::making::StepMaker;
use play_hub::{PlayScene, PlayTerms};
use rho_outside::Gate;
use shard_tables::ShardTables;
use space_row::Row;
use std::alloc::AllocError;
use std::sync::Wait;
use std::thread::Threads;

/// Plays by a crew: opens a hub over the base with what the source offers and cost, lets each seat work in a thread of its own, and
/// closes it. What makes the steps has the prices and the limit of the deploy. Want of memory is the one error.
pub fn play_side_by_side<
    M: StepMaker + Sync,
    J: PlayTerms + Sync,
    T: ShardTables + Sync,
    R: Threads + Wait + Sync,
    G: Gate + Sync,
>(
    crew: &Crew<R, G>,
    maker: &M,
    base: Vec<Row>,
    offers: Vec<Row>,
    price: u64,
    limit: u64,
) -> Result<Closed<PlayScene<J, T>>, AllocError>
    requires maker { Serves (M.prices maker.now) (M.limit maker.now) J.deploy }
    requires rows { J.deploy.rows ≡ base.items }
    requires price { (work_price J.deploy.limit J.source ≡ price) × (price < 2 ^ 62) }
    requires limit { (J.deploy.limit ≡ limit) × (limit < 2 ^ 62) }
    requires offers { offers.items ≡ rows_of (work_products J.source) }
    requires comm { 1 ≤ J.deploy.prices.comm }
    ensures shards { IfOk result (λ r. length r.shards.items ≡ 64) }
    ensures closes { IfOk result (λ r. ClosesPlay J.deploy J.source crew.now.workers r.entries.items
        (map T.rows r.shards.items) r.charged) }
{
    let Pool { hub, seats } = open_play::<J, T>(
        crew.alloc,
        base,
        offers,
        crew.workers,
        price,
        limit,
    )?;
    let seats = work_all(crew.rt, crew.alloc, crew.gate, maker, &hub, seats)?;
    close_play(hub, seats, crew.workers)
}
