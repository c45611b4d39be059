// Operators on two whole numbers.
ghost use Rattle.std.specs.Prelude.{◌≡◌, MatchOption, int_div, int_rem};
ghost use Rattle.calculus.specs.Operators.{on_ints, divided};
ghost use Rattle.calculus.specs.declared.fault.FaultKind.TheVariants.{Overflow};
ghost use Rattle.calculus.specs.declared.plain.Ground.TheVariants.{Int};
ghost use Rattle.value_ops.specs.declared.stop.OpStop.TheVariants.{Fault};
ghost use Rattle.value_ops.specs.Answers.{AnswersGround};

use crate::stop::OpStop;
use calculus::{BinaryOp, FaultKind, Ground};

pub(crate) fn on_ints(op: BinaryOp, x: i64, y: i64) -> Result<Ground, OpStop>
    ensures { AnswersGround (on_ints op x y) result }
{
    match op {
        BinaryOp::Lt => Ok(Ground::Bool(x < y)),
        BinaryOp::Le => Ok(Ground::Bool(x <= y)),
        BinaryOp::Gt => Ok(Ground::Bool(x > y)),
        BinaryOp::Ge => Ok(Ground::Bool(x >= y)),
        BinaryOp::Add => whole(x.checked_add(y)),
        BinaryOp::Sub => whole(x.checked_sub(y)),
        BinaryOp::Mul => whole(x.checked_mul(y)),
        BinaryOp::Div => divide(x, y),
        BinaryOp::Rem => remainder(x, y),
        _ => Err(OpStop::Fault(FaultKind::WrongType)),
    }
}

// A number, or `Overflow` where it has no room in 64 bits.
pub(crate) fn whole(number: Option<i64>) -> Result<Ground, OpStop>
    ensures { MatchOption number (result ≡ Err (Fault Overflow)) (λ n. result ≡ Ok (Int n)) }
{
    match number {
        Some(number) => Ok(Ground::Int(number)),
        None => Err(OpStop::Fault(FaultKind::Overflow)),
    }
}

// The quotient, which is truncated toward zero.
fn divide(x: i64, y: i64) -> Result<Ground, OpStop>
    ensures { AnswersGround (divided x y (int_div x y)) result }
{
    if y == 0 {
        return Err(OpStop::Fault(FaultKind::DivZero));
    }
    whole(x.checked_div(y))
}

// The remainder, which has the sign of the left operand.
fn remainder(x: i64, y: i64) -> Result<Ground, OpStop>
    ensures { AnswersGround (divided x y (int_rem x y)) result }
{
    if y == 0 {
        return Err(OpStop::Fault(FaultKind::DivZero));
    }
    whole(x.checked_rem(y))
}
