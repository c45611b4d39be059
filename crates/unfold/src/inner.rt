// What is unfolded inside a part.
ghost use Rattle.std.specs.Prelude.{◌≡◌, ◌*◌, ℕ, List, [], All, length, map, IfOk};
ghost use Rattle.calculus.specs.CodeLaws.{IsShort};
ghost use Rattle.calculus.specs.Form.{a_case, Fits, IsClosed};
ghost use Rattle.calculus.specs.Outcome.{after, charged, free, pure, within_limits};
ghost use Rattle.calculus.specs.Shape.{many, only, two};
ghost use Rattle.calculus.specs.Substitution.{put};
ghost use Rattle.calculus.specs.Tree.{match as matches, row};
ghost use Rattle.calculus.specs.Unfolding.{names_made};
ghost use Rattle.calculus.specs.Values.{value};
ghost use Rattle.price_table.specs.Results.{ComesTo};
ghost use Rattle.rho_term.specs.Normal.{IsOrdered};
ghost use Rattle.rho_term.specs.Parts.{case_tree, part_tree};
ghost use Rattle.rho_term.specs.Sizes.{in_u64, size};
ghost use Rattle.unfold.specs.Inner.{chosen_body, inner_process, is_silent, HoldsNoProcess};

use crate::limits::put_within;
use name_seed::Seed;
use price_table::{Budget, EvalStop, Priced};
use rho_eval::{eval_owned, eval_part, limited};
use rho_term::{Origin, Part, Term, TermCase};
use spatial_match::first_match;
use std::alloc::{AllocError, Global};
use substitution::substitute;
use system_names::made_name;
use term_bounds::pat_bound;

/// The process that is unfolded inside a part with this seed, within this budget, and the empty process where none is.
/// The part's code has so many bytes.
pub(crate) fn inner_process(
    alloc: Global,
    part: Part,
    bytes: u64,
    seed: &Seed,
    budget: Budget,
) -> Result<Priced<Term>, EvalStop>
    requires bytes { bytes ≡ in_u64 (size (part_tree part)) }
    requires closed { IsClosed (only (part_tree part)) }
    requires ordered { IsOrdered (part_tree part) }
    ensures value { ComesTo result budget.entry (inner_process budget.entry.prices.now seed.now (part_tree part)) }
    ensures closed { IfOk result (λ p. IsClosed p.value) }
{
    let price = budget.price;
    if let Part::New { names, body } = &part {
        return new_body(alloc, names, body, seed, budget);
    }
    let part = match part.into_match() {
        Ok((target, cases)) => return match_body(alloc, target, cases, bytes, budget),
        Err(part) => part,
    };
    match part.into_bundled() {
        Ok(body) => Ok(Priced { value: body, price }),
        Err(other) => value_inside(alloc, &other, budget),
    }
}

/// The least number of bytes of a code that is too long to be matched: four bytes do not count it.
const LONG_CODE: u64 = 4_294_967_296;

/// The names that a `new` with this seed makes.
fn names_made(alloc: Global, names: &Vec<Origin>, seed: &Seed) -> Result<Vec<Term>, AllocError>
    ensures { IfOk result (λ v. v.items ≡ names_made seed.now 0 names.now.items) }
{
    let mut number: u32 = 0;
    let mut values = Vec::new(alloc);
    for origin in names {
        values.push(made_name(alloc, seed, number, *origin)?)?;
        number = number.wrapping_add(1);
    }
    Ok(values)
}

/// The body of a `new` with this seed under its names, at the price of each name.
fn new_body(
    alloc: Global,
    names: &Vec<Origin>,
    body: &Term,
    seed: &Seed,
    budget: Budget,
) -> Result<Priced<Term>, EvalStop>
    ensures { ComesTo result budget.entry (charged (budget.entry.prices.now.name * length names.now.items)
        (pure (put (names_made seed.now 0 names.now.items) body.now))) }
{
    let cost = budget.prices.name().saturating_mul(names.len() as u64);
    let price = budget.charge(cost)?;
    let values = names_made(alloc, names, seed)?;
    let value = substitute(alloc, body, values.as_slice())?;
    Ok(Priced { value, price })
}

/// The body that a match on this target with these cases unfolds; the code of the match has so many bytes.
fn match_body(
    alloc: Global,
    target: Term,
    cases: Vec<TermCase>,
    bytes: u64,
    budget: Budget,
) -> Result<Priced<Term>, EvalStop>
    requires bytes { bytes ≡ in_u64 (size (two matches target (many row (map case_tree cases.items)))) }
    requires closed { IsClosed (only (two matches target (many row (map case_tree cases.items)))) }
    ensures value { ComesTo result budget.entry (after (value budget.entry.prices.now target)
        (λ v. chosen_body budget.entry.prices.now v (map case_tree cases.items))) }
    ensures closed { IfOk result (λ p. IsClosed p.value) }
{
    if bytes >= LONG_CODE {
        return Err(EvalStop::NoMemory);
    }
    let Budget { prices, cap, price } = budget;
    let found = eval_owned(alloc, target, prices, cap, price)?;
    let price = found.price;
    let budget = Budget { prices, cap, price };
    case_body(alloc, &found.value, cases, budget)
}

/// The body of the first of these cases that fits the target under its bindings, each case tried at its price, and
/// the empty process where none fits.
fn case_body(
    alloc: Global,
    target: &Term,
    cases: Vec<TermCase>,
    budget: Budget,
) -> Result<Priced<Term>, EvalStop>
    requires target { IsClosed target.now }
    requires short_target { IsShort target.now }
    requires cases { All (λ c. Fits a_case [] (case_tree c)) cases.items }
    requires short_cases { All (λ c. IsShort c.pat) cases.items }
    ensures value { ComesTo result budget.entry (chosen_body budget.entry.prices.now target.now (map case_tree cases.items)) }
    ensures closed { IfOk result (λ p. IsClosed p.value) }
{
    let Budget {
        prices,
        cap,
        mut price,
    } = budget;
    for case in cases {
        let before = Budget { prices, cap, price };
        price = before.charge(prices.cases())?;
        if let Some(values) = first_match(alloc, &case.pat, target)? {
            let here = Budget { prices, cap, price };
            return bound_body(alloc, case, values.as_slice(), here);
        }
    }
    Ok(Priced {
        value: Term::nil(alloc),
        price,
    })
}

/// The body of a case with these values for the variables of its pattern, or its fault where it is beyond the limits.
/// Where the pattern has no variables the body is given away as it is.
fn bound_body(
    alloc: Global,
    case: TermCase,
    values: &[Term],
    budget: Budget,
) -> Result<Priced<Term>, EvalStop>
    requires { Fits a_case [] (case_tree case) }
    ensures { ComesTo result budget.entry (free (within_limits (put values.now case.body))) }
{
    if pat_bound(&case.pat) > 0 {
        return put_within(alloc, &case.body, values, budget);
    }
    let body = case.into_body();
    // What has a height is known to be in normal order.
    let _height = body.height();
    limited(body, budget.price, budget.cap)
}

/// The value of an operator or a method. A collection is evaluated, and nothing is unfolded inside it, nor inside what
/// is left.
pub(crate) fn value_inside(
    alloc: Global,
    part: &Part,
    budget: Budget,
) -> Result<Priced<Term>, EvalStop>
    requires closed { IsClosed (only (part_tree part.now)) }
    requires ordered { IsOrdered (part_tree part.now) }
    requires other { HoldsNoProcess (part_tree part.now) }
    ensures value { (s : List ℕ) → ComesTo result budget.entry (inner_process budget.entry.prices.now s (part_tree part.now)) }
    ensures closed { IfOk result (λ p. IsClosed p.value) }
{
    let Budget { prices, cap, price } = budget;
    match part {
        Part::Unary { .. } | Part::Binary { .. } | Part::Method { .. } => {
            eval_part(alloc, part, prices, cap, price)
        }
        Part::List(_) | Part::Tuple(_) | Part::Set(_) | Part::Map(_) => {
            let done = eval_part(alloc, part, prices, cap, price)?;
            Ok(Priced {
                value: Term::nil(alloc),
                price: done.price,
            })
        }
        _ => Ok(Priced {
            value: Term::nil(alloc),
            price,
        }),
    }
}

/// Whether a part is neither offered nor unfolded, so that it needs no seed.
pub(crate) fn is_silent(part: &Part) -> bool
    ensures { result ≡ is_silent (part_tree part.now) }
{
    match part {
        Part::Send { .. }
        | Part::Receive { .. }
        | Part::New { .. }
        | Part::Match { .. }
        | Part::Bundle { .. }
        | Part::Unary { .. }
        | Part::Binary { .. }
        | Part::Method { .. } => false,
        _ => true,
    }
}
