//! The answer to a log whose hub is closed.
ghost use Rattle.std.specs.Prelude.{◌≡◌, ◌≢◌, ◌<◌, ◌-◌, ◌^◌, ◌⊎◌, ℕ, List, [], true, false, length, map, IfErr, IsPermutation};
ghost use Rattle.calculus.specs.Log.{Header, Step};
ghost use Rattle.calculus.specs.Rows.{channels, Row as StoredRow};
ghost use Rattle.calculus.specs.Runs.{Deploy, Work};
ghost use Rattle.calculus.specs.Steps.{differ, Bag};
ghost use Rattle.events.specs.Events.{first_ids};
ghost use Rattle.events.specs.Found.{Among};
ghost use Rattle.least_step.specs.Least.{HasRows, NothingIsUsedUp};
ghost use Rattle.replays.specs.Replays.{Given, deploy_under};
ghost use Rattle.replays.specs.Refusals.{is_of_header};
ghost use Rattle.replay_outcome.specs.Settling.{EndsSo};
ghost use Rattle.hub_scenes.specs.Spaces.{DidStep};
ghost use Rattle.hub_scenes.specs.Closing.{IsLegalLog};
ghost use Rattle.replay_answers.specs.Answers.{Clashes, IsAnswered};
ghost use Rattle.replay_store.specs.Stores.{AreShardsOf};
ghost use Rattle.replay_runs.specs.Endings.{EndsDone, HasRaced, IsSound};

use calculus::FaultKind;
use least_step::first_reducible;
use replay_answers::{ReplayFault, Replayed};
use replay_hub::Entry;
use replay_outcome::{Ending, Settled, settle};
use replay_shards::{ReplayShard, ShardedChannel, ShardedRow};
use replay_store::rows_of;
use replays::Verdict;
use std::alloc::Global;

/// What a replay by many workers left: the entries that they drew, and the 64 shards; with what its source came to.
#[derive(Drop)]
pub struct Raced {
    pub entries: Vec<Entry<ShardedRow, ShardedChannel>>,
    pub shards: Vec<ReplayShard>,
    /// The price of the source's work.
    pub price: u64,
    /// The fault of the source's work.
    pub fault: Option<FaultKind>,
}

// What a run came to whose price and verdict let it be done.
fn end_done(
    alloc: Global,
    cost: u64,
    output: Vec<u8>,
    shards: Vec<ReplayShard>,
) -> Result<Replayed, ReplayFault>
    requires shards { length shards.items ≡ 64 }
    ensures steps { IfErr result (λ e. is_of_header e ≡ false) }
    ensures ends { (b : Bag) (made : List Step) (store : List StoredRow) → AreShardsOf store shards.items →
        ((r : StoredRow) → Among r store → channels r.part ≢ []) → HasRows b store → differ (first_ids store) ≡ true →
        NothingIsUsedUp b made → EndsDone b made store cost output.items result }
{
    let rows = rows_of(alloc, shards)?;
    match first_reducible(alloc, rows.as_slice())? {
        Some(least) => Err(ReplayFault::Reducible {
            cont: least.cont,
            taken: least.taken,
        }),
        None => Ok(Replayed {
            verdict: Verdict::Done,
            cost,
            rows,
            output,
        }),
    }
}

// What a run came to whose steps are all done.
fn end(alloc: Global, ending: Ending, shards: Vec<ReplayShard>) -> Result<Replayed, ReplayFault>
    requires shards { length shards.items ≡ 64 }
    ensures steps { IfErr result (λ e. is_of_header e ≡ false) }
    ensures answered { (g : Given) (h : Header) (ss : List Step) (w : Work) (ds : List DidStep)
        (store : List StoredRow) → IsSound g h ss → AreShardsOf store shards.items →
        IsLegalLog (deploy_under h.limit g) w ss ds store → EndsSo (deploy_under h.limit g) w ds ending →
        IsAnswered g h ss result ⊎ Clashes (deploy_under h.limit g) ss }
{
    let Ending {
        verdict,
        cost,
        output,
    } = ending;
    match verdict {
        Verdict::Done => end_done(alloc, cost, output, shards),
        _ => Ok(Replayed {
            verdict,
            cost,
            rows: Vec::new(alloc),
            output,
        }),
    }
}

/// The answer to a log of so many steps, of this limit, from what its replay came to: the first step that is not done; else, where
/// the verdict is done, the least step that is still allowed; and else the outcome.
pub fn answer_of(
    alloc: Global,
    raced: Raced,
    count: u32,
    limit: u64,
) -> Result<Replayed, ReplayFault>
    requires limit { limit < 2 ^ 64 - 1 }
    requires shards { length raced.shards.items ≡ 64 }
    ensures steps { IfErr result (λ e. is_of_header e ≡ false) }
    ensures answered { (g : Given) (h : Header) (ss : List Step) → h.limit ≡ limit → length ss ≡ count →
        IsSound g h ss → HasRaced g h ss raced → IsAnswered g h ss result ⊎ Clashes (deploy_under h.limit g) ss }
{
    let Raced {
        entries,
        shards,
        price,
        fault,
    } = raced;
    match settle(alloc, entries, count, price, fault, limit)? {
        Settled::NoRun(step) => Err(ReplayFault::NoRun { step }),
        Settled::Ended(ending) => end(alloc, ending, shards),
    }
}
