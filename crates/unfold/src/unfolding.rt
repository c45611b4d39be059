// What a process, and a body under bindings, unfold to.
ghost use Rattle.std.specs.Prelude.{◌<◌, ◌-◌, ◌^◌};
ghost use Rattle.calculus.specs.Form.{IsClosed};
ghost use Rattle.calculus.specs.Substitution.{put};
ghost use Rattle.calculus.specs.Unfolding.{Unfolds, UnfoldsUnder};
ghost use Rattle.unfold.specs.Results.{Fulfils};

use crate::limits::put_within;
use crate::turns::{Work, finish, push_parts};
use name_seed::Seed;
use price_table::{Budget, EvalStop, Priced, Prices};
use rho_term::{Op, Term};
use std::alloc::Global;

/// What a closed process offers under this cap, in order, and what that costs.
///
/// Its first fault, and a price above the cap, are errors. The ids and the fresh names come from the seed.
/// `NoMemory` also comes where a `match` has a code of 2^32 bytes or more, and after 2^64 turns.
pub fn unfold(
    alloc: Global,
    term: &Term,
    seed: &Seed,
    prices: &Prices,
    cap: u64,
) -> Result<Priced<Vec<Op>>, EvalStop>
    requires cap { cap < 2 ^ 64 - 1 }
    requires closed { IsClosed term.now }
    ensures { Fulfils result (Unfolds prices.now cap term.now seed.now) }
{
    let term = term.copy(alloc)?;
    unfold_owned(alloc, term, seed, prices, cap)
}

// The same of a process that is given away.
fn unfold_owned(
    alloc: Global,
    term: Term,
    seed: &Seed,
    prices: &Prices,
    cap: u64,
) -> Result<Priced<Vec<Op>>, EvalStop>
    requires cap { cap < 2 ^ 64 - 1 }
    requires closed { IsClosed term }
    ensures { Fulfils result (Unfolds prices.now cap term seed.now) }
{
    let mut left = Vec::new(alloc);
    push_parts(&mut left, term, seed)?;
    let work = Work {
        price: 0,
        offers: Vec::new(alloc),
        left,
    };
    finish(alloc, work, prices, cap)
}

/// What a body offers with these closed values in place of its variables, the first value for the first one bound.
///
/// `TooDeep` and `TooBig` come at no price where the body with its values is beyond these limits.
pub fn unfold_body(
    alloc: Global,
    body: &Term,
    values: &[Term],
    seed: &Seed,
    prices: &Prices,
    cap: u64,
) -> Result<Priced<Vec<Op>>, EvalStop>
    requires cap { cap < 2 ^ 64 - 1 }
    requires closed { IsClosed (put values.now body.now) }
    ensures { Fulfils result (UnfoldsUnder prices.now cap values.now body.now seed.now) }
{
    let price = 0;
    let budget = Budget { prices, cap, price };
    let term = put_within(alloc, body, values, budget)?;
    unfold_owned(alloc, term.value, seed, prices, cap)
}
