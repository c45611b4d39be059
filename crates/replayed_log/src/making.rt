// A step of the log, ready to be drawn.
ghost use Rattle.std.specs.Prelude.{◌≡◌, ◌≤◌, length, All, IfOk};
ghost use Rattle.calculus.specs.Form.{IsClosed};
ghost use Rattle.calculus.specs.Limits.{most_limit};
ghost use Rattle.calculus.specs.Substitution.{put};
ghost use Rattle.replay_hub.specs.Values.{line_items};
ghost use Rattle.replayed_log.specs.Making.{IsMade};

use crate::tries::{arrivals, hub_tries, with_tries};
use crate::unfolding::StepUnfolder;
use event_log::LogStep;
use name_seed::Seed;
use price_table::Prices;
use replay_hub::{Made, Try};
use replay_shards::{Ready, ShardedChannel, ShardedRow, sharded_rows};
use replay_worker::Doing;
use std::alloc::{AllocError, Global};
use std::snapshot::Snapshot;

// A line in a box; None where it is empty. Want of memory is the one error.
fn kept_line(alloc: Global, line: Vec<u8>) -> Result<Option<Box<Vec<u8>>>, AllocError>
    ensures { IfOk result (λ o. line_items o ≡ line.items) }
{
    if line.is_empty() {
        return Ok(None);
    }
    let line = Box::new(alloc, line)?;
    Ok(Some(line))
}

/// The step that a try names, done with what was found. Want of memory is the one error.
pub(crate) fn make_step<U: StepUnfolder>(
    alloc: Global,
    prices: &Prices,
    limit: u64,
    step: &LogStep,
    tried: &Try<ShardedChannel>,
    ready: Ready,
) -> Result<Doing<ShardedRow, ShardedChannel>, AllocError>
    requires limit { limit ≤ most_limit prices.now }
    requires taken { length step.now.taken.items ≤ 16 }
    requires bound { All IsClosed ready.found.bound.items }
    requires closed { IsClosed (put ready.found.bound.items ready.found.body) }
    ensures { IfOk result (IsMade prices.now limit step.now tried.now ready) }
{
    let Ready { found, next } = ready;
    let comm = prices.comm();
    let seed = Seed::comm(&step.cont, step.taken.as_slice(), step.repeat);
    let worked = U::unfold_step(alloc, &found, &seed, prices, limit)?;
    let line = kept_line(alloc, worked.line)?;
    let next = hub_tries(alloc, next)?;
    let offers = sharded_rows(alloc, worked.offers)?;
    let made = Made {
        step: tried.step,
        channel: Snapshot::of(&tried.channel),
        made: Snapshot::of(step),
        gone: Snapshot::of(&found.gone),
        offers: Snapshot::of(&offers),
        next: Snapshot::of(&next),
        price: comm + worked.price,
        fault: worked.fault,
        line,
    };
    let tasks = with_tries(arrivals(alloc, tried.step, offers)?, next)?;
    Ok(Doing {
        made,
        gone: found.gone,
        tasks,
    })
}
