//! A play, from a base to what it came to.
ghost use Rattle.std.specs.Prelude.{◌≡◌, ◌≢◌, ◌<◌, ◌≤◌, ◌+◌, ◌/◌, ◌^◌, ◌⊎◌, [], length, map, All, IfOk};
ghost use Rattle.calculus.specs.Form.{IsBytes, IsClosed};
ghost use Rattle.calculus.specs.Limits.{most_limit};
ghost use Rattle.calculus.specs.Runs.{deploy_of, work_fault, work_price, work_products, Deploy, Work};
ghost use Rattle.calculus.specs.Storing.{IsStorable};
ghost use Rattle.calculus.specs.Unfolding.{rows_of};
ghost use Rattle.event_log.specs.View.{step_of, TakesInRange};
ghost use Rattle.events.specs.Numbers.{IsNumberable};
ghost use Rattle.events.specs.Premises.{Collides};
ghost use Rattle.events.specs.Allowed.{ShowsAnId};
ghost use Rattle.events.specs.Entries.{steps_of, total_of};
ghost use Rattle.hub_scenes.specs.Plays.{entries_of};
ghost use Rattle.play_hub.specs.Endings.{play_of};
ghost use Rattle.replays.specs.View.{verdict_of};
ghost use Rattle.play_outcome.specs.Bases.{IsQuietBase};
ghost use Rattle.play_outcome.specs.Runs.{EndedPlay, IsRunOf};
ghost use Rattle.play_runs.specs.Asking.{deploy_in, UnfoldsTo};

use crate::asking::Asked;
use crate::rows::rows_may_be_stored;
use crate::{KnownWork, Means, known_work};
use calculus::{Digest, FaultKind};
use group_locks::Closed;
use name_seed::Seed;
use numbered_jobs::Crew;
use play_hub::{PlayScene, PlayTerms};
use play_outcome::{Played, outcome};
use play_pool::play_side_by_side;
use price_table::Prices;
use replays::Verdict;
use rho_outside::Gate;
use rho_term::Term;
use shard_tables::ShardTables;
use space_row::Row;
use std::alloc::{AllocError, Global};
use std::marker::Brand;
use std::sync::Wait;
use std::thread::Threads;
use unfold::{Worked, work_source};

// What a closed hub comes to, where the source has this fault. Want of memory is the one error.
fn tell<J: PlayTerms + Sync, T: ShardTables + Sync>(
    alloc: Global,
    closed: Closed<PlayScene<J, T>>,
    fault: Option<FaultKind>,
    limit: u64,
) -> Result<Played, AllocError>
    requires few { length (steps_of (entries_of (play_of closed.entries.items))) < 2 ^ 32 }
    requires shards { length closed.shards.items ≡ 64 }
    ensures steps { IfOk result (λ played. map step_of played.steps.items ≡ steps_of (entries_of (play_of closed.entries.items))) }
    ensures taken { IfOk result (λ played. All TakesInRange played.steps.items) }
    ensures old { IfOk result (λ played. played.verdict ≢ Verdict.Done → played.rows.items ≡ []) }
    ensures run { (deploy : Deploy) (source : Work) → deploy.limit ≡ limit →
        total_of deploy source (entries_of (play_of closed.entries.items)) ≡ closed.charged → work_fault source ≡
        fault → IsClosed deploy.process → All IsStorable deploy.rows →
        EndedPlay deploy source (play_of closed.entries.items) (map T.rows closed.shards.items) →
        IfOk result (λ played. IsRunOf deploy (map step_of played.steps.items) (verdict_of played.verdict) played.cost
        played.rows.items played.output.items) }
{
    let Closed {
        entries,
        shards,
        left: _,
        charged,
        stop: _,
    } = closed;
    outcome::<T>(alloc, entries, shards, charged, fault, limit)
}

// Plays a source that came to this. Contracts name the deploy and the work by the terms.
fn play_source<
    J: PlayTerms + Sync,
    T: ShardTables + Sync,
    R: Threads + Wait + Sync,
    G: Gate + Sync,
>(
    crew: &Crew<R, G>,
    means: Means,
    base: Vec<Row>,
    asked: &Asked,
    worked: Worked,
    known: KnownWork,
) -> Result<Played, AllocError>
    requires limit { means.limit ≤ most_limit means.prices.now }
    requires closed { IsClosed asked.now.term.now }
    requires deploy { J.deploy ≡ deploy_in means base.items asked.now }
    requires unfolds { UnfoldsTo means asked.now J.source }
    requires source { (work_price means.limit J.source ≡ worked.price) × (work_fault J.source ≡ worked.fault) ×
        (worked.price ≤ means.limit + 1) × (worked.offers.items ≡ rows_of (work_products J.source)) }
    ensures count { IfOk result (λ played. length played.steps.items ≤ means.entry.limit / means.entry.prices.now.comm + crew.now.workers) }
    ensures most { IfOk result (λ played. length played.steps.items ≤ 1048608) }
    ensures taken { IfOk result (λ played. All TakesInRange played.steps.items) }
    ensures old { IfOk result (λ played. played.verdict ≢ Verdict.Done → played.rows.items ≡ []) }
    ensures run { IsNumberable asked.now.term.now → IsBytes asked.now.source.now.0 → IsQuietBase base.items asked.now.root.now.0 →
        IfOk result (λ played. IsRunOf J.deploy (map step_of played.steps.items) (verdict_of played.verdict) played.cost
        played.rows.items played.output.items ⊎ (ShowsAnId J.deploy (map step_of played.steps.items) ⊎
        Collides J.deploy (map step_of played.steps.items))) }
{
    let _ = asked;
    let _ = known;
    let comm = means.prices.comm();
    prove!(1 <= comm && comm <= 1_000_000);
    rows_may_be_stored(base.as_slice());
    let Worked {
        price,
        offers,
        fault,
    } = worked;
    let closed: Closed<PlayScene<J, T>> = play_side_by_side(
        crew,
        &means,
        base,
        offers,
        price,
        means.limit,
    )?;
    tell::<J, T>(crew.alloc, closed, fault, means.limit)
}

/// Plays a closed process from a state of these rows with 1 to 32 workers side by side, over tables of this kind, until nothing is pending,
/// a body has a fault or the price passes the limit. `root` is the root of the rows, and `source` the digest of the source's bytes. Each
/// worker passes the gate where it has taken shards in hand, and where it has given them home.
///
/// Its steps are a run, or an id of the rows is shown that is a built-in receiver's or made again, or two of the texts that the deploy
/// hashes are shown to have one digest. Want of memory is the one error.
pub fn play<R: Threads + Wait + Sync, G: Gate + Sync, T: ShardTables + Sync>(
    rt: &R,
    alloc: Global,
    gate: &G,
    workers: u32,
    base: Vec<Row>,
    root: &Digest,
    term: &Term,
    source: &Digest,
    prices: &Prices,
    limit: u64,
) -> Result<Played, AllocError>
    requires workers { (1 ≤ workers) × (workers ≤ 32) }
    requires limit { limit ≤ most_limit prices.now }
    requires closed { IsClosed term.now }
    ensures count { IfOk result (λ played. length played.steps.items ≤ limit / prices.now.comm + workers) }
    ensures most { IfOk result (λ played. length played.steps.items ≤ 1048608) }
    ensures taken { IfOk result (λ played. All TakesInRange played.steps.items) }
    ensures old { IfOk result (λ played. played.verdict ≢ Verdict.Done → played.rows.items ≡ []) }
    ensures run { IsNumberable term.now → IsBytes source.now.0 → IsQuietBase base.items root.now.0 →
        IfOk result (λ played. IsRunOf (deploy_of prices.now limit base.items term.now source.now.0)
        (map step_of played.steps.items) (verdict_of played.verdict) played.cost played.rows.items played.output.items ⊎
        (ShowsAnId (deploy_of prices.now limit base.items term.now source.now.0) (map step_of played.steps.items) ⊎
        Collides (deploy_of prices.now limit base.items term.now source.now.0) (map step_of played.steps.items))) }
{
    let comm = prices.comm();
    prove!(1 <= comm && comm <= 1_000_000);
    let seed = Seed::start(root, source);
    let known = known_work(term, &seed, prices, limit);
    let worked = work_source(alloc, term, &seed, prices, limit)?;
    let means = Means { prices, limit };
    let crew = Crew {
        rt,
        alloc,
        gate,
        workers,
    };
    let asked = Asked { root, term, source };
    play_source::<Brand, T, R, G>(&crew, means, base, &asked, worked, known)
}
