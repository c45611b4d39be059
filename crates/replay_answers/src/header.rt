// The header of a log.
ghost use Rattle.std.specs.Prelude.{◌≡◌, ◌≤◌, List, true, None, IfOk, MatchResult};
ghost use Rattle.calculus.specs.Root.{root};
ghost use Rattle.calculus.specs.Rows.{Row as AnyRow};
ghost use Rattle.calculus.specs.Tree.{Tree};
ghost use Rattle.calculus.specs.Limits.{most_limit as greatest_limit};
ghost use Rattle.event_log.specs.View.{header_of};
ghost use Rattle.replays.specs.Replays.{header_refusal};
ghost use Rattle.replay_answers.specs.Bases.{asked};
ghost use Rattle.replays.specs.Refusals.{is_of_header, refusal_of};

use calculus::Digest;
use event_log::LogHeader;
use price_table::{Prices, most_limit};
use replays::ReplayFault;

/// Refuses a header that names another base, source or prices than these, or a limit out of range: by the
/// first of its parts that is wrong.
pub fn check_header(
    header: &LogHeader,
    base: &Digest,
    source: &Digest,
    prices: &Prices,
) -> Result<(), ReplayFault>
    ensures limit { IfOk result (λ _. header.now.limit ≤ greatest_limit prices.now) }
    ensures refusal { (rows : List AnyRow) (t : Tree) → root rows ≡ base.now.0 →
        MatchResult result (λ _. header_refusal (asked rows t source.now.0 prices.now) (header_of header.now) ≡ None)
        (λ e. (is_of_header e ≡ true) × (header_refusal (asked rows t source.now.0 prices.now) (header_of header.now) ≡
        refusal_of e)) }
{
    if header.base != *base {
        return Err(ReplayFault::WrongBase {
            log: header.base,
            state: *base,
        });
    }
    if header.source != *source {
        return Err(ReplayFault::WrongSource {
            log: header.source,
            given: *source,
        });
    }
    let given = prices.digest();
    if header.prices != given {
        return Err(ReplayFault::WrongPrices {
            log: header.prices,
            given,
        });
    }
    let most = most_limit(prices);
    if header.limit == 0 || header.limit > most {
        return Err(ReplayFault::WrongLimit {
            log: header.limit,
            most,
        });
    }
    Ok(())
}
