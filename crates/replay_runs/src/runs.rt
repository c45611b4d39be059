ghost use Rattle.std.specs.Prelude.{◌≡◌, ◌≤◌, ◌⊎◌, true, false, None, Some, IfErr, IsErrAnd};
ghost use Rattle.calculus.specs.Form.{IsBytes, IsClosed};
ghost use Rattle.calculus.specs.Limits.{most_limit};
ghost use Rattle.calculus.specs.Root.{root};
ghost use Rattle.calculus.specs.Steps.{differ};
ghost use Rattle.event_log.specs.View.{header_of, steps_of, IsWritable};
ghost use Rattle.events.specs.Numbers.{IsNumberable};
ghost use Rattle.replays.specs.Replays.{deploy_under, header_refusal, Refusal};
ghost use Rattle.replays.specs.Refusals.{is_of_header, refusal_of};
ghost use Rattle.replay_answers.specs.Answers.{Clashes, IsAnswered};
ghost use Rattle.replay_answers.specs.Bases.{asked, ids_of};
ghost use Rattle.events.specs.Quiet.{AreQuiet};
ghost use Rattle.replay_runs.specs.Basis.{given_by, IsSoundBasis};
ghost use Rattle.replay_runs.specs.Racing.{any_built_in_id, has_built_in_id};

use crate::answer_of;
use crate::basis::Basis;
use crate::racing::race;
use calculus::Digest;
use event_log::Log;
use name_seed::Seed;
use numbered_jobs::Crew;
use price_table::Prices;
use replay_answers::{ReplayFault, Replayed, check_header};
use rho_outside::Gate;
use rho_term::Term;
use space_row::Row;
use std::alloc::Global;
use std::marker::Brand;
use std::sync::Wait;
use std::thread::Threads;

// Whether a row has the id of a built-in receiver.
fn is_built_in(row: &Row) -> bool
    ensures { result ≡ has_built_in_id row.now }
{
    let id = row.id();
    id == Seed::system(2).digest() || id == Seed::system(3).digest()
}

// Whether one of these rows has the id of a built-in receiver.
fn are_forged(rows: &[Row]) -> bool
    ensures { result ≡ any_built_in_id rows.now }
{
    for row in rows {
        if is_built_in(row) {
            return true;
        }
    }
    false
}

// What each byte is known to be.
fn are_bytes(bytes: &[u8])
    ensures { IsBytes bytes.now }
{}

// Replays the steps of a log under a right header, as `replay` does.
fn replay_steps<R: Threads + Wait + Sync, G: Gate + Sync>(
    crew: &Crew<R, G>,
    basis: &Basis,
    log: Log,
) -> Result<Replayed, ReplayFault>
    requires basis { IsSoundBasis basis.now }
    requires writable { IsWritable log }
    requires limit { log.header.limit ≤ most_limit basis.now.prices.now }
    requires right { header_refusal (given_by basis.now) (header_of log.header) ≡ None }
    ensures steps { IfErr result (λ e. is_of_header e ≡ false) }
    ensures answered { IsAnswered (given_by basis.now) (header_of log.header) (steps_of log.steps.items) result
        ⊎ Clashes (deploy_under log.header.limit (given_by basis.now)) (steps_of log.steps.items) }
{
    if are_forged(basis.base) {
        return Err(ReplayFault::NoRun { step: 0 });
    }
    let source = basis.source;
    are_bytes(&source.0);
    let comm = basis.prices.comm();
    prove!(comm <= 1_000_000);
    let limit = log.header.limit;
    let count = log.steps.len() as u32;
    let raced = race::<Brand, R, G>(crew, basis, log)?;
    answer_of(crew.alloc, raced, count, limit)
}

/// Replays the steps of a log by 1 to 32 workers, from a base of these rows with this root, of a closed process. `source` is the
/// digest of the source's bytes. The base allows no step, as each state that was read. Workers are numbered from 0, and pass the
/// gate around each entry.
///
/// The header is looked at first: its base, its source, its prices and its limit. Then rows arrive and steps of the log are made
/// in any order that each row's uses in the log allow, also past the limit and after a fault. A step is made of rows with its ids:
/// its data differ, its receiver's binds match them in order, and its repeat number is how often it stands in the log before
/// itself, and 0 unless no row leaves. Where all steps are made and the run is done, no step may be allowed.
///
/// So the answer is that to the log, whatever the number of workers and whatever they did, or else the digests of some replay of
/// the log clash. Where a row of the base has a built-in receiver's id, which is such a clash, no step is made.
pub fn replay<R: Threads + Wait + Sync, G: Gate + Sync>(
    rt: &R,
    alloc: Global,
    gate: &G,
    workers: u32,
    base: &[Row],
    base_root: &Digest,
    term: &Term,
    source: &Digest,
    prices: &Prices,
    log: Log,
) -> Result<Replayed, ReplayFault>
    requires workers { (1 ≤ workers) × (workers ≤ 32) }
    requires root { root base.now ≡ base_root.now.0 }
    requires ids { differ (ids_of base.now) ≡ true }
    requires quiet { AreQuiet base.now }
    requires closed { IsClosed term.now }
    requires numberable { IsNumberable term.now }
    requires writable { IsWritable log }
    ensures refused { (r : Refusal) → header_refusal (asked base.now term.now source.now.0 prices.now)
        (header_of log.header) ≡ Some r → IsErrAnd result (λ e. refusal_of e ≡ Some r) }
    ensures header { IfErr result (λ e. is_of_header e ≡ true →
        header_refusal (asked base.now term.now source.now.0 prices.now) (header_of log.header) ≡ refusal_of e) }
    ensures answered { IsAnswered (asked base.now term.now source.now.0 prices.now) (header_of log.header) (steps_of log.steps.items) result
        ⊎ Clashes (deploy_under log.header.limit (asked base.now term.now source.now.0 prices.now)) (steps_of log.steps.items) }
{
    let crew = Crew {
        rt,
        alloc,
        gate,
        workers,
    };
    let basis = Basis {
        base,
        base_root,
        term,
        source,
        prices,
    };
    match check_header(&log.header, base_root, source, prices) {
        Ok(()) => replay_steps(&crew, &basis, log),
        Err(fault) => Err(fault),
    }
}
