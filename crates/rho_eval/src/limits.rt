// Prices under a cap, and the limits on heights and codes.
ghost use Rattle.std.specs.Prelude.{◌≡◌, ◌≤◌, ◌<◌, ◌+◌, ◌*◌, MatchResult, ℕ};
ghost use Rattle.term_encoder.specs.Sizes.{in_u64};
ghost use Rattle.calculus.specs.Outcome.{free, within_limits};
ghost use Rattle.price_table.specs.Outcomes.{Came, Stopped};

use calculus::FaultKind;
use price_table::{Budget, EvalStop, Priced};
use rho_term::{MOST_BYTES, MOST_HEIGHT, Term};
use term_encoder::code_len;

/// The process at this price so far, or its fault where it is beyond the limits.
pub fn limited(term: Term, price: u64, cap: u64) -> Result<Priced<Term>, EvalStop>
    requires { price ≤ cap }
    ensures { MatchResult result (λ p. Came cap price p.price p.value (free (within_limits term)))
        (λ e. Stopped cap price (free (within_limits term)) e) }
{
    if term.height() > MOST_HEIGHT {
        let kind = FaultKind::TooDeep;
        return Err(EvalStop::Fault { kind, price });
    }
    if code_len(&term) > MOST_BYTES {
        let kind = FaultKind::TooBig;
        return Err(EvalStop::Fault { kind, price });
    }
    Ok(Priced { value: term, price })
}

/// The price so far and that of an operator or a method on operands of so many bytes, where they do not pass the cap.
pub(crate) fn charge(bytes: u64, budget: Budget) -> Result<u64, EvalStop>
    ensures { MatchResult result (λ n. (l : ℕ) → bytes ≡ in_u64 l →
        (n ≡ budget.entry.price + (budget.entry.prices.now.op + budget.entry.prices.now.byte * l)) × (n ≤ budget.entry.cap))
        (λ e. (e ≡ EvalStop.Over) × ((l : ℕ) → bytes ≡ in_u64 l →
        budget.entry.cap < budget.entry.price + (budget.entry.prices.now.op + budget.entry.prices.now.byte * l))) }
{
    let byte = budget.prices.byte();
    let cost = byte
        .saturating_mul(bytes)
        .saturating_add(budget.prices.op());
    let price = budget.charge(cost)?;
    Ok(price)
}
