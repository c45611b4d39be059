// The row of a part that is offered: its price, the tests in their order, and what is offered.
ghost use Rattle.std.specs.Prelude.{◌≡◌, ◌≤◌, ◌<◌, ◌+◌, ◌*◌, [], ◌∷◌, MatchResult, ℕ};
ghost use Rattle.calculus.specs.Shape.{at, held};
ghost use Rattle.calculus.specs.Unfolding.{a_row, offered, row_limits};
ghost use Rattle.calculus.specs.Outcome.{free};
ghost use Rattle.rho_term.specs.Parts.{part_tree};
ghost use Rattle.rho_term.specs.Rows.{row_of_op};
ghost use Rattle.price_table.specs.Outcomes.{Came, Stopped};
ghost use Rattle.term_encoder.specs.Sizes.{in_u64};
ghost use Rattle.offered_rows.specs.Offers.{ComesToRow, IsOffered, IsOneOffered, row_of, tested};

use calculus::{Digest, FaultKind};
use price_table::{Budget, EvalStop, Priced};
use rho_term::{MOST_BYTES, MOST_HEIGHT, Op, Part, Term};
use std::alloc::Global;
use term_encoder::code_len;

/// How many bytes the code of a row has beside that of a process of its part alone.
const ROW_BYTES: u64 = 28;

/// The price so far, this price and one for each of so many bytes, where they do not pass the cap.
fn charge(base: u64, bytes: u64, budget: Budget) -> Result<u64, EvalStop>
    ensures { MatchResult result (λ n. (l : ℕ) → bytes ≡ in_u64 l →
        (n ≡ budget.entry.price + (base + budget.entry.prices.now.byte * l)) × (n ≤ budget.entry.cap))
        (λ e. (e ≡ EvalStop.Over) × ((l : ℕ) → bytes ≡ in_u64 l →
        budget.entry.cap < budget.entry.price + (base + budget.entry.prices.now.byte * l))) }
{
    let byte = budget.prices.byte();
    let cost = byte.saturating_mul(bytes).saturating_add(base);
    let price = budget.charge(cost)?;
    Ok(price)
}

/// The offer of a send or a receive, the one part of a process.
fn offer_of(id: Digest, term: Term) -> Op
    requires { IsOneOffered term }
    ensures { row_of_op result ≡ row_of id.0 (at 0 (held term)) }
{
    let mut parts = term.into_parts();
    let part = parts.remove(0);
    match part.into_op(id) {
        Ok(op) => op,
        Err(_other) => unreachable!(),
    }
}

/// The row of this process at this price so far, or its fault where it is beyond the limits.
fn limited(id: Digest, term: Term, price: u64, cap: u64) -> Result<Priced<Op>, EvalStop>
    requires offered { IsOneOffered term }
    requires price { price ≤ cap }
    ensures { MatchResult result (λ p. Came cap price p.price (a_row (row_of_op p.value) ∷ [])
        (free (row_limits (row_of id.0 (at 0 (held term))))))
        (λ e. Stopped cap price (free (row_limits (row_of id.0 (at 0 (held term))))) e) }
{
    if term.height() > MOST_HEIGHT {
        let kind = FaultKind::TooDeep;
        return Err(EvalStop::Fault { kind, price });
    }
    if code_len(&term) > MOST_BYTES - ROW_BYTES {
        let kind = FaultKind::TooBig;
        return Err(EvalStop::Fault { kind, price });
    }
    let value = offer_of(id, term);
    Ok(Priced { value, price })
}

/// What is offered by this send or receive, at this price and one for each byte of its row. The price is
/// added, then comes the fault that was found before, then the limits are tested.
pub(crate) fn offer_part(
    alloc: Global,
    id: Digest,
    part: Part,
    fault: Option<FaultKind>,
    base: u64,
    budget: Budget,
) -> Result<Priced<Op>, EvalStop>
    requires { IsOffered part }
    ensures { ComesToRow result budget.entry (offered base budget.entry.prices.now.byte
        (row_of id.0 (part_tree part)) (tested fault (row_of id.0 (part_tree part)))) }
{
    let term = Term::from_part(alloc, part)?;
    let bytes = code_len(&term).saturating_add(ROW_BYTES);
    let price = charge(base, bytes, budget)?;
    if let Some(kind) = fault {
        return Err(EvalStop::Fault { kind, price });
    }
    limited(id, term, price, budget.cap)
}
