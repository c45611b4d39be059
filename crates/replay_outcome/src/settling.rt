//! What a replay's done steps come to.
ghost use Rattle.std.specs.Prelude.{◌≡◌, ◌<◌, ◌-◌, ◌^◌, List, [], map, IfOk};
ghost use Rattle.calculus.specs.Rows.{Row};
ghost use Rattle.calculus.specs.Runs.{Deploy, Work, work_fault, work_price};
ghost use Rattle.calculus.specs.Tree.{Tree};
ghost use Rattle.hub_scenes.specs.Spaces.{DidStep};
ghost use Rattle.hub_scenes.specs.Entries.{did_by};
ghost use Rattle.replay_hub.specs.Values.{entry_of};
ghost use Rattle.replay_outcome.specs.Settling.{EndsSo, IsSum, Settles};

use crate::places::place_all;
use crate::sum::{Sum, Summed, sum_up};
use calculus::FaultKind;
use replay_hub::Entry;
use replays::Verdict;
use std::alloc::{AllocError, Global};

/// How a replay ended whose steps are all done.
#[derive(Drop)]
pub struct Ending {
    pub verdict: Verdict,
    /// What is charged: the limit where the price passed it, and else the price.
    pub cost: u64,
    /// What was printed, where the verdict is Done; else nothing.
    pub output: Vec<u8>,
}

/// What a replay's done steps come to.
#[derive(Drop)]
pub enum Settled {
    /// This is the first step of the log that is not done.
    NoRun(u32),
    /// All steps are done.
    Ended(Ending),
}

// How a replay with this sum ends at this limit.
fn end(alloc: Global, sum: Sum, limit: u64) -> Ending
    requires { limit < 2 ^ 64 - 1 }
    ensures { (deploy : Deploy) (w : Work) (ds : List DidStep) → deploy.limit ≡ limit →
        IsSum (work_price deploy.limit w) (work_fault w) ds sum → EndsSo deploy w ds result }
{
    let Sum {
        total,
        verdict,
        lines,
    } = sum;
    if total > limit {
        return Ending {
            verdict: Verdict::Exhausted,
            cost: limit,
            output: Vec::new(alloc),
        };
    }
    let output = match verdict {
        Verdict::Done => lines,
        _ => Vec::new(alloc),
    };
    Ending {
        verdict,
        cost: total,
        output,
    }
}

/// What the entries of a replay of a log of so many steps come to, at this limit and where the source has this price and
/// this fault. Want of memory is the one error.
pub fn settle<R: Drop, C: Drop>(
    alloc: Global,
    entries: Vec<Entry<R, C>>,
    count: u32,
    price: u64,
    fault: Option<FaultKind>,
    limit: u64,
) -> Result<Settled, AllocError>
    requires { limit < 2 ^ 64 - 1 }
    ensures { (deploy : Deploy) (w : Work) (row : R → Row) (channel : C → Tree) → deploy.limit ≡ limit →
        work_price deploy.limit w ≡ price → work_fault w ≡ fault →
        IfOk result (Settles deploy w count (did_by (map (entry_of row channel) entries.items))) }
{
    let places = place_all(alloc, entries, count)?;
    match sum_up(alloc, places, price, fault)? {
        Summed::Undone(index) => Ok(Settled::NoRun(index)),
        Summed::Whole(sum) => Ok(Settled::Ended(end(alloc, sum, limit))),
    }
}
