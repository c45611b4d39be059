// Operators and methods on values: first the price, then the answer or its fault, then the limits.
ghost use Rattle.std.specs.Prelude.{◌≡◌, ◌≤◌, ◌∷◌, [], length, sum_by, All, MatchBool, MatchResult, string_bytes};
ghost use Rattle.calculus.specs.Code.{code};
ghost use Rattle.calculus.specs.Methods.{method_answer};
ghost use Rattle.calculus.specs.Operators.{unary_answer, binary_answer, seen, seen_part};
ghost use Rattle.calculus.specs.Outcome.{Answer, free};
ghost use Rattle.calculus.specs.Tree.{Tree};
ghost use Rattle.calculus.specs.Values.{checked, operated};
ghost use Rattle.coll_ops.specs.Views.{IsCollection, IsCollectionKind, IsNoEquality};
ghost use Rattle.price_table.specs.Outcomes.{Came, Stopped};
ghost use Rattle.price_table.specs.Results.{ComesTo};
ghost use Rattle.rho_term.specs.Parts.{part_tree};
ghost use Rattle.term_encoder.specs.Sizes.{in_u64};
ghost use Rattle.value_ops.specs.Answers.{Answers, IsEquality, IsNoCollection, IsOperand};

use crate::limits::{charge, limited};
use calculus::{BinaryOp, UnaryOp};
use coll_ops::{coll_binary, coll_method};
use price_table::{Budget, EvalStop, Priced};
use rho_term::{Part, Term};
use std::alloc::Global;
use term_encoder::code_len;
use value_ops::{OpStop, binary, text_method, unary};

/// An operator on one value, within this budget.
pub(crate) fn operate_one(
    alloc: Global,
    op: UnaryOp,
    arg: &Term,
    budget: Budget,
) -> Result<Priced<Term>, EvalStop>
    ensures { ComesTo result budget.entry (operated budget.entry.prices.now (arg.now ∷ []) (unary_answer op arg.now)) }
{
    let bytes = code_len(arg);
    let price = charge(bytes, budget)?;
    let answer = unary(alloc, op, arg);
    answered(answer, price, budget.cap)
}

/// An operator on two values, within this budget.
pub(crate) fn operate_two(
    alloc: Global,
    op: BinaryOp,
    left: &Term,
    right: &Term,
    budget: Budget,
) -> Result<Priced<Term>, EvalStop>
    requires left { IsOperand left.now }
    requires right { IsOperand right.now }
    ensures { ComesTo result budget.entry
        (operated budget.entry.prices.now (left.now ∷ right.now ∷ []) (binary_answer op left.now right.now)) }
{
    let bytes = code_len(left).saturating_add(code_len(right));
    let price = charge(bytes, budget)?;
    let answer = on_two(alloc, op, left, right);
    answered(answer, price, budget.cap)
}

/// A method of a value, within this budget.
pub(crate) fn call(
    alloc: Global,
    name: &str,
    target: &Term,
    args: &Vec<Term>,
    budget: Budget,
) -> Result<Priced<Term>, EvalStop>
    requires target { IsOperand target.now }
    requires args { All IsOperand args.now.items }
    ensures { ComesTo result budget.entry
        (operated budget.entry.prices.now (target.now ∷ args.now.items) (method_answer name.now target.now args.now.items)) }
{
    let bytes = code_len(target).saturating_add(bytes_of(args));
    let price = charge(bytes, budget)?;
    let answer = on_target(alloc, name, target, args.as_slice());
    answered(answer, price, budget.cap)
}

// How many bytes the codes of these have together, or the greatest `u64` where they are more.
fn bytes_of(terms: &Vec<Term>) -> u64
    ensures { result ≡ in_u64 (sum_by (λ v. length (code v)) terms.now.items) }
{
    let mut bytes: u64 = 0;
    for term in terms {
        bytes = bytes.saturating_add(code_len(term));
    }
    bytes
}

// An answer at this price so far, within the limits.
fn answered(answer: Result<Term, OpStop>, price: u64, cap: u64) -> Result<Priced<Term>, EvalStop>
    requires { price ≤ cap }
    ensures { (a : Answer Tree) → Answers a answer → MatchResult result
        (λ p. Came cap price p.price p.value (free (checked a))) (λ e. Stopped cap price (free (checked a)) e) }
{
    match answer {
        Ok(value) => limited(value, price, cap),
        Err(OpStop::Fault(kind)) => Err(EvalStop::Fault { kind, price }),
        Err(OpStop::NoMemory) => Err(EvalStop::NoMemory),
    }
}

fn on_two(alloc: Global, op: BinaryOp, left: &Term, right: &Term) -> Result<Term, OpStop>
    requires left { IsOperand left.now }
    requires right { IsOperand right.now }
    ensures { Answers (binary_answer op left.now right.now) result }
{
    if is_equality(op) {
        return binary(alloc, op, left, right);
    }
    if is_collection(left) {
        return coll_binary(alloc, op, left, right);
    }
    binary(alloc, op, left, right)
}

fn on_target(alloc: Global, name: &str, target: &Term, args: &[Term]) -> Result<Term, OpStop>
    requires target { IsOperand target.now }
    requires args { All IsOperand args.now }
    ensures { Answers (method_answer name.now target.now args.now) result }
{
    if is_collection(target) {
        return coll_method(alloc, name, target, args);
    }
    text_method(alloc, name, target, args)
}

fn is_equality(op: BinaryOp) -> bool
    ensures { MatchBool result (IsEquality op) (IsNoEquality op) }
{
    match op {
        BinaryOp::Eq => true,
        BinaryOp::Ne => true,
        _ => false,
    }
}

// Whether a process is one list, tuple, set or map.
fn is_collection(term: &Term) -> bool
    ensures { MatchBool result (IsCollection term.now) (IsNoCollection (seen term.now)) }
{
    let parts = term.parts();
    if parts.len() != 1 {
        return false;
    }
    is_collection_part(&parts[0])
}

fn is_collection_part(part: &Part) -> bool
    ensures { MatchBool result (IsCollectionKind (seen_part (part_tree part.now))) (IsNoCollection (seen_part (part_tree part.now))) }
{
    match part {
        Part::List(_) => true,
        Part::Tuple(_) => true,
        Part::Set(_) => true,
        Part::Map(_) => true,
        _ => false,
    }
}
