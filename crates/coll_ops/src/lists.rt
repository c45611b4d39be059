// Operators and methods of lists and tuples.
ghost use Rattle.std.specs.Prelude.{◌≡◌, ◌≤◌, ◌++◌, false, pos, All};
ghost use Rattle.calculus.specs.Methods.{among_methods, methods, nth_at, slice};
ghost use Rattle.calculus.specs.Operators.{on_kinds, an_int, a_list, a_tuple, of_list, of_set, seen};
ghost use Rattle.coll_ops.specs.Views.{Tells};
ghost use Rattle.value_ops.specs.Answers.{IsOperand};

use crate::maker::Maker;
use crate::making::distinct;
use crate::views::{index_of, range_of};
use calculus::{BinaryOp, FaultKind, Ground};
use rho_term::{Part, Term};

/// An operator on two lists.
pub(crate) fn list_binary(
    maker: &mut Maker,
    op: BinaryOp,
    left: &[Term],
    right: &[Term],
) -> Result<Term, FaultKind>
    ensures { Tells maker.new.failed (on_kinds op (a_list left.now) (a_list right.now)) result }
{
    match op {
        BinaryOp::Append => Ok(append(maker, left, right)),
        _ => Err(FaultKind::WrongType),
    }
}

// A list of the members of both, one after the other.
fn append(maker: &mut Maker, left: &[Term], right: &[Term]) -> Term
    ensures { maker.new.failed ≡ false → result ≡ of_list (left.now ++ right.now) }
{
    let mut members = Vec::new(maker.alloc);
    maker.add_copies(&mut members, left);
    maker.add_copies(&mut members, right);
    maker.value(Part::List(members))
}

/// A list of these members.
pub(crate) fn list_of(maker: &mut Maker, members: &[Term]) -> Term
    ensures { maker.new.failed ≡ false → result ≡ of_list members.now }
{
    append(maker, members, &[])
}

/// A method of a list.
pub(crate) fn list_method(
    maker: &mut Maker,
    name: &str,
    members: &[Term],
    args: &[Term],
) -> Result<Term, FaultKind>
    requires { All IsOperand members.now }
    ensures { Tells maker.new.failed (among_methods name.now args.now (methods (a_list members.now))) result }
{
    match (name, args) {
        ("length", []) => Ok(maker.value(Part::Ground(Ground::Int(members.len() as i64)))),
        ("toSet", []) => Ok(to_set(maker, members)),
        ("nth", [index]) => nth(maker, members, index),
        ("slice", [from, to]) => slice(maker, members, from, to),
        _ => Err(FaultKind::NoMethod),
    }
}

/// A method of a tuple.
pub(crate) fn tuple_method(
    maker: &mut Maker,
    name: &str,
    members: &[Term],
    args: &[Term],
) -> Result<Term, FaultKind>
    ensures { Tells maker.new.failed (among_methods name.now args.now (methods (a_tuple members.now))) result }
{
    match (name, args) {
        ("nth", [index]) => nth(maker, members, index),
        _ => Err(FaultKind::NoMethod),
    }
}

// The member at an index.
fn nth(maker: &mut Maker, members: &[Term], index: &Term) -> Result<Term, FaultKind>
    ensures { Tells maker.new.failed (nth_at (λ t. t) members.now (seen index.now)) result }
{
    let index = index_of(index)?;
    if index >= members.len() {
        return Err(FaultKind::Index);
    }
    Ok(maker.copy(&members[index]))
}

// The members from one index up to another.
fn slice(maker: &mut Maker, members: &[Term], from: &Term, to: &Term) -> Result<Term, FaultKind>
    ensures { Tells maker.new.failed (slice of_list members.now (seen from.now) (seen to.now)) result }
{
    match range_of(from, to) {
        Ok((low, high)) => slice_between(maker, members, low, high),
        Err(kind) => Err(kind),
    }
}

// The members from one place up to another.
fn slice_between(
    maker: &mut Maker,
    members: &[Term],
    low: usize,
    high: usize,
) -> Result<Term, FaultKind>
    requires { low ≤ high }
    ensures { Tells maker.new.failed (slice of_list members.now (an_int (pos low)) (an_int (pos high))) result }
{
    if high > members.len() {
        return Err(FaultKind::Index);
    }
    Ok(list_of(maker, &members[low..high]))
}

// The members, each once, as a set.
fn to_set(maker: &mut Maker, members: &[Term]) -> Term
    requires { All IsOperand members.now }
    ensures { maker.new.failed ≡ false → result ≡ of_set members.now }
{
    let mut copied = Vec::new(maker.alloc);
    maker.add_copies(&mut copied, members);
    distinct(maker, copied)
}
