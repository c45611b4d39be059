// Workers of a replay side by side, from a checkpoint's rows and a source.
ghost use Rattle.std.specs.Prelude.{◌≡◌, ◌≤◌, ◌^◌, true, length, IfOk};
ghost use Rattle.calculus.specs.Limits.{most_limit};
ghost use Rattle.calculus.specs.Steps.{differ};
ghost use Rattle.event_log.specs.View.{steps_of, IsWritable};
ghost use Rattle.events.specs.Premises.{FitsInTexts};
ghost use Rattle.process_laws.specs.StorableLaws.{AreStorable};
ghost use Rattle.replays.specs.Replays.{deploy_under};
ghost use Rattle.replay_answers.specs.Bases.{ids_of};
ghost use Rattle.events.specs.Quiet.{AllowNoStep};
ghost use Rattle.replay_runs.specs.Basis.{given_by, IsSoundBasis};
ghost use Rattle.replay_runs.specs.Racing.{arrivals, IsRaced};

use crate::Raced;
use crate::basis::Basis;
use crate::unfolding::Unfolder;
use event_log::Log;
use group_locks::Closed;
use name_seed::Seed;
use numbered_jobs::Crew;
use replay_hub::{Coming, Task};
use replay_pool::replay_side_by_side;
use replay_shards::{ShardedChannel, ShardedRow};
use replay_space::Rig;
use replay_store::open_shards;
use replayed_log::{LogReplay, ReplayNames};
use rho_outside::Gate;
use space_row::Row;
use std::alloc::{AllocError, Global};
use std::sync::Wait;
use std::thread::Threads;
use unfold::{Worked, work_source};

// The most jobs that a replay may begin with.
const MOST_TASKS: u64 = 1 << 58;

// The jobs of a replay at its start: what its source offers is to arrive. Want of memory is the one error.
fn first_tasks(
    alloc: Global,
    offers: Vec<Row>,
) -> Result<Vec<Task<ShardedRow, ShardedChannel>>, AllocError>
    ensures few { IfOk result (λ v. length v.items ≤ 2 ^ 58) }
    ensures are { IfOk result (λ v. v.items ≡ arrivals offers.items) }
{
    if offers.len() as u64 > MOST_TASKS {
        return Err(AllocError);
    }
    let mut tasks = Vec::new(alloc);
    for row in offers {
        let row = ShardedRow::from_row(alloc, row)?;
        tasks.push(Task::Arrive(Coming { row, from: None }))?;
    }
    Ok(tasks)
}

/// Replays a log by a crew, from this basis, whose rows allow no step. Want of memory is the one error.
pub(crate) fn race<N: ReplayNames + Sync, R: Threads + Wait + Sync, G: Gate + Sync>(
    crew: &Crew<R, G>,
    basis: &Basis,
    log: Log,
) -> Result<Raced, AllocError>
    requires deploy { N.deploy ≡ deploy_under log.header.limit (given_by basis.now) }
    requires names { N.steps ≡ steps_of log.steps.items }
    requires basis { IsSoundBasis basis.now }
    requires quiet { AllowNoStep basis.now.base.now }
    requires limit { log.header.limit ≤ most_limit basis.now.prices.now }
    requires writable { IsWritable log }
    ensures shards { IfOk result (λ r. length r.shards.items ≡ 64) }
    ensures storable { IfOk result (λ _. AreStorable basis.now.base.now) }
    ensures raced { FitsInTexts N.deploy N.steps → differ (ids_of N.deploy.rows) ≡ true → IfOk result (IsRaced N.deploy N.steps) }
{
    let alloc = crew.alloc;
    let prices = basis.prices;
    let comm = prices.comm();
    prove!(comm <= 1_000_000);
    let limit = log.header.limit;
    let seed = Seed::start(basis.base_root, basis.source);
    let Worked {
        price,
        offers,
        fault,
    } = work_source(alloc, basis.term, &seed, prices, limit)?;
    let shards = open_shards(alloc, basis.base)?;
    let tasks = first_tasks(alloc, offers)?;
    let rig = Rig::from_log(alloc, &log)?;
    let tables: LogReplay<N, Unfolder> = LogReplay::new(log, rig, *prices, limit);
    let closed = replay_side_by_side(crew, tables, shards, tasks)?;
    let Closed {
        entries,
        shards,
        ..
    } = closed;
    if shards.len() != 64 {
        return Err(AllocError);
    }
    Ok(Raced {
        entries,
        shards,
        price,
        fault,
    })
}
