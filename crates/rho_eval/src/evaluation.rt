// The value of a process, from the inside out: operands from left to right, members in ascending order.
ghost use Rattle.std.specs.Prelude.{◌≡◌, ◌≤◌, ◌<◌, ◌-◌, ◌^◌, map, All, IfErr, IfOk, MatchResult};
ghost use Rattle.calculus.specs.Form.{IsClosed};
ghost use Rattle.calculus.specs.Outcome.{in_order, pure, within, gives};
ghost use Rattle.calculus.specs.Shape.{only};
ghost use Rattle.calculus.specs.Values.{value};
ghost use Rattle.price_table.specs.Outcomes.{Came, CameFlat, Stopped, EndsWith};
ghost use Rattle.rho_eval.specs.Values.{Evaluates};
ghost use Rattle.rho_term.specs.Normal.{IsOrdered};
ghost use Rattle.rho_term.specs.Parts.{part_tree, pair_tree};
ghost use Rattle.value_ops.specs.Answers.{IsOperand};

use crate::limits::limited;
use crate::operation::{call, operate_one, operate_two};
use code_order::make_par;
use coll_ops::{map_of, set_of};
use price_table::{Budget, EvalStop, Priced, Prices};
use rho_term::{Part, Term};
use std::alloc::Global;

/// The value of a closed process, and what its operators and methods cost, under this cap.
///
/// The parts of a process, and the members of sets and maps, are evaluated in the order of their codes,
/// operands from left to right. An operator or a method adds its price, `op` and `byte` for each byte of
/// its operands' codes, before its faults are tested. A value of a height above 400 is TooDeep, and one
/// whose code has more than 1,048,576 bytes is TooBig.
///
/// `Fault` is the first fault, with the price up to it; `Over` comes where the price passes the cap
/// before any fault.
pub fn evaluate(
    alloc: Global,
    term: &Term,
    prices: &Prices,
    cap: u64,
) -> Result<Priced<Term>, EvalStop>
    requires cap { cap < 2 ^ 64 - 1 }
    requires closed { IsClosed term.now }
    ensures value { IfOk result (λ p. Evaluates prices.now cap term.now (within (record { price = p.price; answer = gives p.value }))) }
    ensures stop { IfErr result (λ e. EndsWith (Evaluates prices.now cap term.now) e) }
{
    let price = 0;
    eval_term(alloc, term, prices, cap, price)
}

/// The value of a closed process as `evaluate` has it, from a price so far.
#[cycle(evaluate)]
pub fn eval_term(
    alloc: Global,
    term: &Term,
    prices: &Prices,
    cap: u64,
    price: u64,
) -> Result<Priced<Term>, EvalStop>
    requires cap { cap < 2 ^ 64 - 1 }
    requires price { price ≤ cap }
    requires closed { IsClosed term.now }
    ensures { MatchResult result (λ p. Came cap price p.price p.value (value prices.now term.now))
        (λ e. Stopped cap price (value prices.now term.now) e) }
{
    let done = eval_parts(alloc, term.parts(), prices, cap, price)?;
    let value = make_par(alloc, done.value)?;
    limited(value, done.price, cap)
}

// The values of these parts in turn, as the parts of one process.
#[cycle(evaluate)]
fn eval_parts(
    alloc: Global,
    parts: &[Part],
    prices: &Prices,
    cap: u64,
    price: u64,
) -> Result<Priced<Vec<Part>>, EvalStop>
    requires cap { cap < 2 ^ 64 - 1 }
    requires price { price ≤ cap }
    requires closed { All (λ q. IsClosed (only (part_tree q))) parts.now }
    requires ordered { All (λ q. IsOrdered (part_tree q)) parts.now }
    ensures values { MatchResult result (λ p. CameFlat cap price p.price (map part_tree p.value.items)
        (in_order (map (λ q. value prices.now (part_tree q)) parts.now)))
        (λ e. Stopped cap price (in_order (map (λ q. value prices.now (part_tree q)) parts.now)) e) }
    ensures ordered { IfOk result (λ p. All (λ q. IsOrdered (part_tree q)) p.value.items) }
{
    let mut total = price;
    let mut values = Vec::new(alloc);
    for part in parts {
        let done = eval_part(alloc, part, prices, cap, total)?;
        total = done.price;
        let mut more = done.value.into_parts();
        values.append(&mut more)?;
    }
    Ok(Priced {
        value: values,
        price: total,
    })
}

/// The values of these closed processes in turn, from a price so far.
#[cycle(evaluate)]
pub fn eval_terms(
    alloc: Global,
    terms: &Vec<Term>,
    prices: &Prices,
    cap: u64,
    price: u64,
) -> Result<Priced<Vec<Term>>, EvalStop>
    requires cap { cap < 2 ^ 64 - 1 }
    requires price { price ≤ cap }
    requires closed { All IsClosed terms.now.items }
    ensures { MatchResult result (λ p. Came cap price p.price p.value.items
        (in_order (map (value prices.now) terms.now.items)))
        (λ e. Stopped cap price (in_order (map (value prices.now) terms.now.items)) e) }
{
    let mut total = price;
    let mut values = Vec::new(alloc);
    for term in terms {
        let done = eval_term(alloc, term, prices, cap, total)?;
        total = done.price;
        values.push(done.value)?;
    }
    Ok(Priced {
        value: values,
        price: total,
    })
}

// The values of these keys and values in turn, each key right before its value.
#[cycle(evaluate)]
fn eval_pairs(
    alloc: Global,
    pairs: &Vec<(Term, Term)>,
    prices: &Prices,
    cap: u64,
    price: u64,
) -> Result<Priced<Vec<(Term, Term)>>, EvalStop>
    requires cap { cap < 2 ^ 64 - 1 }
    requires price { price ≤ cap }
    requires keys { All (λ q. IsClosed q.0) pairs.now.items }
    requires values { All (λ q. IsClosed q.1) pairs.now.items }
    ensures { MatchResult result (λ p. Came cap price p.price (map pair_tree p.value.items)
        (in_order (map (λ q. value prices.now (pair_tree q)) pairs.now.items)))
        (λ e. Stopped cap price (in_order (map (λ q. value prices.now (pair_tree q)) pairs.now.items)) e) }
{
    let mut total = price;
    let mut values = Vec::new(alloc);
    for (key, value) in pairs {
        let key = eval_term(alloc, key, prices, cap, total)?;
        let value = eval_term(alloc, value, prices, cap, key.price)?;
        total = value.price;
        values.push((key.value, value.value))?;
    }
    Ok(Priced {
        value: values,
        price: total,
    })
}

/// The value of a closed part, as a process, from a price so far.
#[cycle(evaluate)]
pub fn eval_part(
    alloc: Global,
    part: &Part,
    prices: &Prices,
    cap: u64,
    price: u64,
) -> Result<Priced<Term>, EvalStop>
    requires cap { cap < 2 ^ 64 - 1 }
    requires price { price ≤ cap }
    requires closed { IsClosed (only (part_tree part.now)) }
    requires ordered { IsOrdered (part_tree part.now) }
    ensures { MatchResult result (λ p. Came cap price p.price p.value (value prices.now (part_tree part.now)))
        (λ e. Stopped cap price (value prices.now (part_tree part.now)) e) }
{
    match part {
        Part::List(members) => {
            let done = eval_terms(alloc, members, prices, cap, price)?;
            let value = Term::from_part(alloc, Part::List(done.value))?;
            limited(value, done.price, cap)
        }
        Part::Tuple(members) => {
            let done = eval_terms(alloc, members, prices, cap, price)?;
            let value = Term::from_part(alloc, Part::Tuple(done.value))?;
            limited(value, done.price, cap)
        }
        Part::Set(members) => {
            let done = eval_terms(alloc, members, prices, cap, price)?;
            let value = set_of(alloc, done.value)?;
            limited(value, done.price, cap)
        }
        Part::Map(pairs) => {
            let done = eval_pairs(alloc, pairs, prices, cap, price)?;
            let value = map_of(alloc, done.value)?;
            limited(value, done.price, cap)
        }
        Part::Bundle { rights, body } => {
            let done = eval_term(alloc, body, prices, cap, price)?;
            let rights = *rights;
            let body = done.value;
            let value = Term::from_part(alloc, Part::Bundle { rights, body })?;
            let price = done.price;
            Ok(Priced { value, price })
        }
        Part::Unary { op, arg } => {
            let arg = eval_term(alloc, arg, prices, cap, price)?;
            let price = arg.price;
            let budget = Budget { prices, cap, price };
            operate_one(alloc, *op, &arg.value, budget)
        }
        Part::Binary { op, left, right } => {
            let left = eval_term(alloc, left, prices, cap, price)?;
            let right = eval_term(alloc, right, prices, cap, left.price)?;
            let price = right.price;
            let budget = Budget { prices, cap, price };
            operate_two(alloc, *op, &left.value, &right.value, budget)
        }
        Part::Method { name, target, args } => {
            let target = eval_term(alloc, target, prices, cap, price)?;
            let args = eval_terms(alloc, args, prices, cap, target.price)?;
            let price = args.price;
            let budget = Budget { prices, cap, price };
            call(alloc, name.as_str(), &target.value, &args.value, budget)
        }
        other => {
            let value = Term::from_part(alloc, other.copy(alloc)?)?;
            Ok(Priced { value, price })
        }
    }
}
