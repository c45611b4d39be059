// Operators and methods of sets.
ghost use Rattle.std.specs.Prelude.{◌≡◌, ◌++◌, ◌∷◌, [], false, map, All};
ghost use Rattle.calculus.specs.Code.{code};
ghost use Rattle.calculus.specs.Order.{IsAscending};
ghost use Rattle.calculus.specs.Methods.{among_methods, methods};
ghost use Rattle.calculus.specs.Operators.{on_kinds, a_set, of_set, without as those_without};
ghost use Rattle.calculus.specs.Shape.{many, only};
ghost use Rattle.calculus.specs.Tree.{set};
ghost use Rattle.coll_ops.specs.Keys.{Ascend};
ghost use Rattle.coll_ops.specs.Views.{IsValue, Tells};
ghost use Rattle.value_ops.specs.Answers.{IsOperand};

use crate::binary::kinds_binary;
use crate::lists::list_of;
use crate::maker::Maker;
use crate::merge::{contains, merged, without};
use calculus::{BinaryOp, FaultKind, Ground};
use rho_term::{Part, Term};
use std::slice::from_ref;

/// An operator on two sets.
pub(crate) fn set_binary(
    maker: &mut Maker,
    op: BinaryOp,
    left: &[Term],
    right: &[Term],
) -> Result<Term, FaultKind>
    requires { Ascend (λ t. t) left.now × Ascend (λ t. t) right.now }
    ensures { Tells maker.new.failed (on_kinds op (a_set left.now) (a_set right.now)) result }
{
    match op {
        BinaryOp::Append => Ok(union(maker, left, right)),
        BinaryOp::Minus => Ok(difference(maker, left, right)),
        _ => Err(FaultKind::WrongType),
    }
}

// The members of both sets, each once.
fn union(maker: &mut Maker, left: &[Term], right: &[Term]) -> Term
    requires { Ascend (λ t. t) left.now × Ascend (λ t. t) right.now }
    ensures { maker.new.failed ≡ false → result ≡ of_set (left.now ++ right.now) }
{
    let members = merged(maker, left, right);
    maker.value(Part::Set(members))
}

// The members of the left set that are not in the right one.
fn difference(maker: &mut Maker, left: &[Term], right: &[Term]) -> Term
    requires { Ascend (λ t. t) left.now × Ascend (λ t. t) right.now }
    ensures { maker.new.failed ≡ false → result ≡ of_set (those_without right.now left.now) }
{
    let members = without(maker, left, right);
    maker.value(Part::Set(members))
}

/// A method of a set, which has these members.
pub(crate) fn set_method(
    maker: &mut Maker,
    name: &str,
    target: &Term,
    members: &[Term],
    args: &[Term],
) -> Result<Term, FaultKind>
    requires target { target.now ≡ only (many set members.now) }
    requires value { IsValue target.now }
    requires args { All IsOperand args.now }
    ensures { Tells maker.new.failed (among_methods name.now args.now (methods (a_set members.now))) result }
{
    match args {
        [] => set_plainly(maker, name, members),
        [argument] => set_given(maker, name, target, members, argument),
        _ => Err(FaultKind::NoMethod),
    }
}

// A method without arguments.
fn set_plainly(maker: &mut Maker, name: &str, members: &[Term]) -> Result<Term, FaultKind>
    requires { IsAscending (map code members.now) }
    ensures { Tells maker.new.failed (among_methods name.now [] (methods (a_set members.now))) result }
{
    match name {
        "size" => Ok(maker.value(Part::Ground(Ground::Int(members.len() as i64)))),
        "toList" => Ok(list_of(maker, members)),
        _ => Err(FaultKind::NoMethod),
    }
}

// A method of one argument.
fn set_given(
    maker: &mut Maker,
    name: &str,
    target: &Term,
    members: &[Term],
    argument: &Term,
) -> Result<Term, FaultKind>
    requires target { target.now ≡ only (many set members.now) }
    requires value { IsValue target.now }
    requires argument { IsOperand argument.now }
    ensures { Tells maker.new.failed (among_methods name.now (argument.now ∷ []) (methods (a_set members.now))) result }
{
    match name {
        "contains" => Ok(contains(maker, members, argument)),
        "add" => Ok(union(maker, members, from_ref(argument))),
        "delete" => Ok(difference(maker, members, from_ref(argument))),
        "union" => kinds_binary(maker, BinaryOp::Append, target, argument),
        "diff" => kinds_binary(maker, BinaryOp::Minus, target, argument),
        _ => Err(FaultKind::NoMethod),
    }
}
