// Jobs that follow an arrival or a done step.
ghost use Rattle.std.specs.Prelude.{◌≡◌, ◌<◌, ◌^◌, ◌++◌, length, map as each, Some, IfOk};
ghost use Rattle.replay_hub.specs.declared.deed.Task.TheVariants.{Arrive, Index};
ghost use Rattle.replay_shards.specs.Ready.{index_tries};
ghost use Rattle.replayed_log.specs.Making.{seen_tries};

use replay_hub::{Coming, Task, Try};
use replay_shards::{ShardedChannel, ShardedRow, Try as ShardTry};
use std::alloc::{AllocError, Global};

/// Tries as a hub has them. Want of memory is the one error.
pub(crate) fn hub_tries(
    alloc: Global,
    tries: Vec<ShardTry>,
) -> Result<Vec<Try<ShardedChannel>>, AllocError>
    ensures { IfOk result (λ v. seen_tries v.items ≡ index_tries tries.items) }
{
    let mut own = Vec::new(alloc);
    for tried in tries {
        own.push(Try {
            step: tried.step,
            channel: tried.channel,
        })?;
    }
    Ok(own)
}

/// The jobs to bring in rows that this step offered. Want of memory is the one error.
pub(crate) fn arrivals(
    alloc: Global,
    step: u32,
    rows: Vec<ShardedRow>,
) -> Result<Vec<Task<ShardedRow, ShardedChannel>>, AllocError>
    ensures { IfOk result (λ v. v.items ≡ each (λ r. Arrive (record { row = r; from = Some step })) rows.items) }
{
    let mut tasks = Vec::new(alloc);
    for row in rows {
        tasks.push(Task::Arrive(Coming {
            row,
            from: Some(step),
        }))?;
    }
    Ok(tasks)
}

// Adds the jobs to try steps behind others. Want of memory is the one error.
fn push_tries(
    tasks: Vec<Task<ShardedRow, ShardedChannel>>,
    tries: Vec<Try<ShardedChannel>>,
) -> Result<Vec<Task<ShardedRow, ShardedChannel>>, AllocError>
    ensures { IfOk result (λ v. v.items ≡ tasks.items ++ each (λ t. Index t) tries.items) }
{
    let mut all = tasks;
    for tried in tries {
        all.push(Task::Index(tried))?;
    }
    Ok(all)
}

/// The jobs with those to try steps behind them, fewer than a hub takes at once. More are want of memory, which is the one
/// error.
pub(crate) fn with_tries(
    tasks: Vec<Task<ShardedRow, ShardedChannel>>,
    tries: Vec<Try<ShardedChannel>>,
) -> Result<Vec<Task<ShardedRow, ShardedChannel>>, AllocError>
    ensures are { IfOk result (λ v. v.items ≡ tasks.items ++ each (λ t. Index t) tries.items) }
    ensures few { IfOk result (λ v. length v.items < 2 ^ 57) }
{
    let all = push_tries(tasks, tries)?;
    if all.len() >= 144_115_188_075_855_872 {
        return Err(AllocError);
    }
    Ok(all)
}
