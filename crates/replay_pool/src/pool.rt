//! Workers of a replay side by side.
ghost use Rattle.std.specs.Prelude.{◌≡◌, ◌≤◌, ◌⊎◌, ◌^◌, true, length, map, IfOk};
ghost use Rattle.std.specs.List.{All};
ghost use Rattle.calculus.specs.Runs.{source_seed, Work};
ghost use Rattle.calculus.specs.Steps.{differ};
ghost use Rattle.calculus.specs.Unfolding.{Unfolds};
ghost use Rattle.events.specs.Premises.{FitsInTexts};
ghost use Rattle.hub_rule.specs.Counts.{Projected};
ghost use Rattle.group_locks.specs.Seats.{AtRest, IsIdle};
ghost use Rattle.racing_replays.specs.Answering.{SomeClash};
ghost use Rattle.hub_scenes.specs.Closing.{DecideLog};
ghost use Rattle.hub_scenes.specs.Entries.{did_by};
ghost use Rattle.hub_scenes.specs.Spaces.{Space};
ghost use Rattle.replay_hub.specs.Ends.{FoundAnEnd};
ghost use Rattle.replay_hub.specs.Values.{entry_of, values};

use group_locks::{Closed, Hub, Pool, Seat, Terms};
use numbered_jobs::{Crew, side_by_side};
use replay_hub::{ReplayScene, Task, close_replay};
use replay_worker::{ReplayTables, Site, work_through};
use rho_outside::Gate;
use std::alloc::{AllocError, Global};
use std::sync::Wait;
use std::thread::Threads;

// Does all jobs of a hub, each seat in a thread of its own. Want of memory is the one error.
fn work_all<J: ReplayTables + Sync, R: Threads + Wait + Sync, G: Gate + Sync>(
    rt: &R,
    alloc: Global,
    gate: &G,
    tables: &J,
    hub: &Hub<ReplayScene<J>>,
    seats: Vec<Seat<ReplayScene<J>>>,
) -> Result<Vec<Seat<ReplayScene<J>>>, AllocError>
    requires few { length seats.items ≤ 32 }
    requires knows { J.knows tables.now }
    requires seats { All (λ s. IsIdle hub.now.table.shared.table_id s.state) seats.items }
    ensures count { IfOk result (λ v. length v.items ≡ length seats.items) }
    ensures each { IfOk result (λ v. All (λ s. AtRest hub.now.table.shared.table_id s.state × FoundAnEnd s.state) v.items) }
{
    side_by_side(
        rt,
        alloc,
        seats,
        &|worker: u32, seat: Seat<ReplayScene<J>>| -> Seat<ReplayScene<J>>
            requires { J.knows tables.now × IsIdle hub.now.table.shared.table_id seat.state }
            ensures { AtRest hub.entry.now.table.shared.table_id result.state × FoundAnEnd result.state }
        {
            let site = Site {
                rt,
                alloc,
                gate,
                worker,
            };
            work_through(&site, tables, hub, seat)
        },
    )
}

/// Replays a log by a crew, over these shards and with these jobs, with which a replay of the log may open. Once it
/// has ended, what its entries did and its shards decide the log, or the digests of some replay of the log clash. Want of
/// memory is the one error. Workers are numbered from 0, and pass the gate around each entry. What they asked goes before the
/// hub is closed.
pub fn replay_side_by_side<J: ReplayTables + Sync + Drop, R: Threads + Wait + Sync, G: Gate + Sync>(
    crew: &Crew<R, G>,
    tables: J,
    shards: Vec<J::Shard>,
    tasks: Vec<Task<J::Row, J::Channel>>,
) -> Result<Closed<ReplayScene<J>>, AllocError>
    requires knows { J.knows tables }
    requires sizes { (length shards.items ≡ 64) × (length tasks.items ≤ 2 ^ 58) }
    requires opens { (store : Space) × Projected (values J.deploy J.steps J.row_of J.channel_of J.part_of).projects
        store shards.items × (values J.deploy J.steps J.row_of J.channel_of J.part_of).opens store tasks.items }
    ensures decides { IfOk result (λ r. (w : Work) → Unfolds J.deploy.prices J.deploy.limit J.deploy.process
        (source_seed J.deploy) w → FitsInTexts J.deploy J.steps → differ (map (λ q. q.id) J.deploy.rows) ≡ true →
        DecideLog J.deploy w J.steps (did_by (map (entry_of J.row_of J.channel_of) r.entries.items))
        (map J.part_of r.shards.items) ⊎ SomeClash J.deploy w J.steps) }
{
    let scene = ReplayScene::new();
    let terms = Terms {
        seats: crew.workers,
        spent: 0,
        limit: MOST_CHARGED,
    };
    let Pool { hub, seats } = Hub::start(crew.alloc, scene, shards, tasks, terms)?;
    let seats = work_all(crew.rt, crew.alloc, crew.gate, &tables, &hub, seats)?;
    drop(tables);
    let Ok(closed) = close_replay(hub, seats) else {
        return Err(AllocError);
    };
    if closed.stop.is_some() {
        return Err(AllocError);
    }
    Ok(closed)
}

// The limit of what is charged. No entry costs anything.
const MOST_CHARGED: u64 = (1 << 62) - 1;
