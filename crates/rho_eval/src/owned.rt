// The value of a process that is given away.
ghost use Rattle.std.specs.Prelude.{◌≡◌, ◌≤◌, ◌<◌, ◌-◌, ◌^◌, true, All, MatchResult};
ghost use Rattle.calculus.specs.Form.{IsClosed};
ghost use Rattle.calculus.specs.Values.{value};
ghost use Rattle.price_table.specs.Outcomes.{Came, Stopped};
ghost use Rattle.rho_eval.specs.Values.{IsOwnValue};
ghost use Rattle.rho_term.specs.Parts.{part_tree};

use crate::evaluation::eval_term;
use crate::limits::limited;
use price_table::{EvalStop, Priced, Prices};
use rho_term::{Part, Term};
use std::alloc::Global;

/// The value of a closed process that is given away, as `eval_term` has it. Where each part is its own value, the
/// process is given back and not copied.
pub fn eval_owned(
    alloc: Global,
    term: Term,
    prices: &Prices,
    cap: u64,
    price: u64,
) -> Result<Priced<Term>, EvalStop>
    requires cap { cap < 2 ^ 64 - 1 }
    requires price { price ≤ cap }
    requires closed { IsClosed term }
    ensures { MatchResult result (λ p. Came cap price p.price p.value (value prices.now term))
        (λ e. Stopped cap price (value prices.now term) e) }
{
    if are_own_values(term.parts()) {
        return limited(term, price, cap);
    }
    eval_term(alloc, &term, prices, cap, price)
}

// Whether each of these parts is its own value.
fn are_own_values(parts: &[Part]) -> bool
    ensures { result ≡ true → All (λ q. IsOwnValue (part_tree q)) parts.now }
{
    for part in parts {
        if !is_own_value(part) {
            return false;
        }
    }
    true
}

// Whether a part is its own value: in a collection or a bundle something may be evaluated.
fn is_own_value(part: &Part) -> bool
    ensures { result ≡ true → IsOwnValue (part_tree part.now) }
{
    match part {
        Part::List(_) | Part::Tuple(_) | Part::Set(_) | Part::Map(_) => false,
        Part::Bundle { .. } | Part::Unary { .. } | Part::Binary { .. } | Part::Method { .. } =>
            false,
        _ => true,
    }
}
