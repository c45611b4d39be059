ghost use Rattle.std.specs.Prelude.{string_bytes, ◌≡◌};
ghost use Rattle.calculus.specs.Operators.{unary_answer, binary_answer, on_kind, on_kinds, on_bools, on_texts, on_bytes, seen};
ghost use Rattle.calculus.specs.Order.{up_to};
ghost use Rattle.calculus.specs.Shape.{only};
ghost use Rattle.calculus.specs.declared.plain.UnaryOp.TheVariants as unary_op;
ghost use Rattle.rho_term.specs.Parts.{ground_tree};
ghost use Rattle.value_ops.specs.Answers.{Answers, AnswersGround, AreOperands, IsEquality, IsNoCollection};

use crate::equality::are_equal;
use crate::ints::{on_ints, whole};
use crate::stop::OpStop;
use crate::values::{ground_of, process_of};
use calculus::{BinaryOp, FaultKind, Ground, UnaryOp};
use rho_term::Term;
use std::alloc::Global;

/// The value of an operator on one value.
///
/// `not` takes a Bool and the prefix `-` an Int; another operand is `WrongType`, and `-` of the least
/// Int is `Overflow`.
pub fn unary(alloc: Global, op: UnaryOp, arg: &Term) -> Result<Term, OpStop>
    ensures { Answers (unary_answer op arg.now) result }
{
    process_of(alloc, on_kind(op, arg))
}

// An operator that takes one value of its kind.
fn on_kind(op: UnaryOp, arg: &Term) -> Result<Ground, OpStop>
    ensures { AnswersGround (on_kind op (seen arg.now)) result }
{
    match ground_of(arg) {
        Some(value) => on_ground(op, value),
        None => Err(OpStop::Fault(FaultKind::WrongType)),
    }
}

fn on_ground(op: UnaryOp, arg: &Ground) -> Result<Ground, OpStop>
    ensures { AnswersGround (on_kind op (seen (only (ground_tree arg.now)))) result }
{
    match op {
        UnaryOp::Not => invert(arg),
        UnaryOp::Neg => negate(arg),
    }
}

/// The value of an operator on two values.
///
/// `==` and `!=` tell whether two closed processes are congruent, where their codes are shorter than
/// 2^32 bytes. The left operand of the others is no list, tuple, set or map: they take two values of one
/// kind, and other operands are `WrongType`. After that `/` and `%` by 0 are `DivZero`, and a number
/// that has no room in 64 bits is `Overflow`.
pub fn binary(alloc: Global, op: BinaryOp, left: &Term, right: &Term) -> Result<Term, OpStop>
    requires { (IsEquality op → ⊥) → IsNoCollection (seen left.now) }
    ensures { (IsEquality op → AreOperands left.now right.now) → Answers (binary_answer op left.now right.now) result }
{
    let value = match op {
        BinaryOp::Eq => Ok(Ground::Bool(are_equal(left, right))),
        BinaryOp::Ne => Ok(Ground::Bool(!are_equal(left, right))),
        _ => on_kinds(alloc, op, left, right),
    };
    process_of(alloc, value)
}

// An operator that takes two values of one kind.
fn on_kinds(alloc: Global, op: BinaryOp, left: &Term, right: &Term) -> Result<Ground, OpStop>
    requires { IsNoCollection (seen left.now) }
    ensures { AnswersGround (on_kinds op (seen left.now) (seen right.now)) result }
{
    let Some(x) = ground_of(left) else {
        return Err(OpStop::Fault(FaultKind::WrongType));
    };
    let Some(y) = ground_of(right) else {
        return Err(OpStop::Fault(FaultKind::WrongType));
    };
    on_grounds(alloc, op, x, y)
}

fn on_grounds(alloc: Global, op: BinaryOp, x: &Ground, y: &Ground) -> Result<Ground, OpStop>
    ensures { AnswersGround (on_kinds op (seen (only (ground_tree x.now))) (seen (only (ground_tree y.now)))) result }
{
    match (x, y) {
        (Ground::Bool(x), Ground::Bool(y)) => on_bools(op, *x, *y),
        (Ground::Int(x), Ground::Int(y)) => on_ints(op, *x, *y),
        (Ground::Str(x), Ground::Str(y)) => on_texts(alloc, op, x, y),
        (Ground::Bytes(x), Ground::Bytes(y)) => on_bytes(alloc, op, x, y),
        _ => Err(OpStop::Fault(FaultKind::WrongType)),
    }
}

// Both operands are values by now, so `and` and `or` need no order. `false` is below `true`.
fn on_bools(op: BinaryOp, x: bool, y: bool) -> Result<Ground, OpStop>
    ensures { AnswersGround (on_bools op x y) result }
{
    match op {
        BinaryOp::Or => Ok(Ground::Bool(x || y)),
        BinaryOp::And => Ok(Ground::Bool(x && y)),
        BinaryOp::Lt => Ok(Ground::Bool(!x && y)),
        BinaryOp::Le => Ok(Ground::Bool(!x || y)),
        BinaryOp::Gt => Ok(Ground::Bool(x && !y)),
        BinaryOp::Ge => Ok(Ground::Bool(x || !y)),
        _ => Err(OpStop::Fault(FaultKind::WrongType)),
    }
}

// Texts stand in the order of their bytes.
fn on_texts(alloc: Global, op: BinaryOp, x: &String, y: &String) -> Result<Ground, OpStop>
    ensures { AnswersGround (on_texts op (string_bytes x.now) (string_bytes y.now)) result }
{
    match op {
        BinaryOp::Lt => Ok(Ground::Bool(!is_up_to(y, x))),
        BinaryOp::Le => Ok(Ground::Bool(is_up_to(x, y))),
        BinaryOp::Gt => Ok(Ground::Bool(!is_up_to(x, y))),
        BinaryOp::Ge => Ok(Ground::Bool(is_up_to(y, x))),
        BinaryOp::Append => {
            let mut text = String::from_str(alloc, x.as_str())?;
            text.push_str(y.as_str())?;
            Ok(Ground::Str(text))
        }
        _ => Err(OpStop::Fault(FaultKind::WrongType)),
    }
}

fn is_up_to(x: &String, y: &String) -> bool
    ensures { result ≡ up_to (string_bytes x.now) (string_bytes y.now) }
{
    x.as_bytes().cmp(y.as_bytes()).is_le()
}

fn on_bytes(alloc: Global, op: BinaryOp, x: &Vec<u8>, y: &Vec<u8>) -> Result<Ground, OpStop>
    ensures { AnswersGround (on_bytes op x.now.items y.now.items) result }
{
    match op {
        BinaryOp::Append => {
            let mut bytes = Vec::from_slice(alloc, x.as_slice())?;
            bytes.extend_from_slice(y.as_slice())?;
            Ok(Ground::Bytes(bytes))
        }
        _ => Err(OpStop::Fault(FaultKind::WrongType)),
    }
}

fn invert(arg: &Ground) -> Result<Ground, OpStop>
    ensures { AnswersGround (on_kind unary_op.Not (seen (only (ground_tree arg.now)))) result }
{
    match arg {
        Ground::Bool(flag) => Ok(Ground::Bool(!*flag)),
        _ => Err(OpStop::Fault(FaultKind::WrongType)),
    }
}

fn negate(arg: &Ground) -> Result<Ground, OpStop>
    ensures { AnswersGround (on_kind unary_op.Neg (seen (only (ground_tree arg.now)))) result }
{
    match arg {
        Ground::Int(number) => whole(number.checked_neg()),
        _ => Err(OpStop::Fault(FaultKind::WrongType)),
    }
}
