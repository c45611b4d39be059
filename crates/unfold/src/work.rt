// What the unfoldings of a deploy came to.
ghost use Rattle.std.specs.Prelude.{◌≡◌, ◌<◌, ◌-◌, ◌^◌, ⊤, None, map, All, IfOk, MatchResult};
ghost use Rattle.calculus.specs.Form.{IsClosed};
ghost use Rattle.calculus.specs.Substitution.{put};
ghost use Rattle.calculus.specs.Unfolding.{Unfolds, UnfoldsUnder};
ghost use Rattle.calculus.specs.Storing.{IsStorable};
ghost use Rattle.rho_term.specs.Rows.{row_of_op};
ghost use Rattle.unfold.specs.Works.{HasStopped, IsWork};

use crate::{unfold, unfold_body};
use calculus::FaultKind;
use name_seed::Seed;
use price_table::{EvalStop, Priced, Prices};
use rho_term::{Op, Term};
use space_row::Row;
use std::alloc::{AllocError, Global};

/// What an unfolding came to.
#[derive(Drop)]
pub struct Worked {
    /// The price, which is one more than the cap where it passed the cap.
    pub price: u64,
    /// What is offered: nothing where there is a fault or the price passed the cap.
    pub offers: Vec<Row>,
    /// The first fault, where the price did not pass the cap before it.
    pub fault: Option<FaultKind>,
}

/// Operations as the rows that they are. Want of memory is the one error.
pub fn rows_of(alloc: Global, operations: Vec<Op>) -> Result<Vec<Row>, AllocError>
    requires { All (λ o. IsStorable (row_of_op o)) operations.items }
    ensures { IfOk result (λ v. v.items ≡ map row_of_op operations.items) }
{
    let mut rows = Vec::new(alloc);
    for operation in operations {
        rows.push(Row::from_op(operation))?;
    }
    Ok(rows)
}

// An unfolding's result or why it stopped, as the same of both.
fn settle(
    alloc: Global,
    unfolded: Result<Priced<Vec<Op>>, EvalStop>,
    cap: u64,
) -> Result<Worked, AllocError>
    requires cap { cap < 2 ^ 64 - 1 }
    requires storable { MatchResult unfolded (λ p. All (λ o. IsStorable (row_of_op o)) p.value.items) (λ _. ⊤) }
    ensures { MatchResult unfolded (λ p. IfOk result (λ w. (w.price ≡ p.price) ×
        (w.offers.items ≡ map row_of_op p.value.items) × (w.fault ≡ None)))
        (λ stop. IfOk result (HasStopped cap stop)) }
{
    match unfolded {
        Ok(priced) => Ok(Worked {
            price: priced.price,
            offers: rows_of(alloc, priced.value)?,
            fault: None,
        }),
        Err(EvalStop::Fault { kind, price }) => Ok(Worked {
            price,
            offers: Vec::new(alloc),
            fault: Some(kind),
        }),
        Err(EvalStop::Over) => Ok(Worked {
            price: cap + 1,
            offers: Vec::new(alloc),
            fault: None,
        }),
        Err(EvalStop::NoMemory) => Err(AllocError),
    }
}

/// What a source comes to. Want of memory is the one error.
pub fn work_source(
    alloc: Global,
    term: &Term,
    seed: &Seed,
    prices: &Prices,
    cap: u64,
) -> Result<Worked, AllocError>
    requires cap { cap < 2 ^ 64 - 1 }
    requires closed { IsClosed term.now }
    ensures { IfOk result (IsWork (Unfolds prices.now cap term.now seed.now) cap) }
{
    settle(alloc, unfold(alloc, term, seed, prices, cap), cap)
}

/// What a body comes to under these values. Want of memory is the one error.
pub fn work_body(
    alloc: Global,
    body: &Term,
    values: &[Term],
    seed: &Seed,
    prices: &Prices,
    cap: u64,
) -> Result<Worked, AllocError>
    requires cap { cap < 2 ^ 64 - 1 }
    requires closed { IsClosed (put values.now body.now) }
    ensures { IfOk result (IsWork (UnfoldsUnder prices.now cap values.now body.now seed.now) cap) }
{
    settle(
        alloc,
        unfold_body(alloc, body, values, seed, prices, cap),
        cap,
    )
}
