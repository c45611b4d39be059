// Bodies within the limits.
ghost use Rattle.calculus.specs.Outcome.{free, within_limits};
ghost use Rattle.calculus.specs.Substitution.{put};
ghost use Rattle.price_table.specs.Results.{ComesTo};

use calculus::FaultKind;
use price_table::{Budget, EvalStop, Priced};
use rho_term::{MOST_BYTES, MOST_HEIGHT, Term};
use std::alloc::Global;
use substituted_sizes::put_size;
use substitution::substitute;

/// A body with these values at this price so far, or its fault where it is beyond the limits.
pub(crate) fn put_within(
    alloc: Global,
    body: &Term,
    values: &[Term],
    budget: Budget,
) -> Result<Priced<Term>, EvalStop>
    ensures { ComesTo result budget.entry (free (within_limits (put values.now body.now))) }
{
    let price = budget.price;
    let (height, bytes) = put_size(body, values);
    if height > MOST_HEIGHT {
        let kind = FaultKind::TooDeep;
        return Err(EvalStop::Fault { kind, price });
    }
    if bytes > MOST_BYTES {
        let kind = FaultKind::TooBig;
        return Err(EvalStop::Fault { kind, price });
    }
    let value = substitute(alloc, body, values)?;
    Ok(Priced { value, price })
}
