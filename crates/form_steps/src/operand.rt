//! Operands of the tightest operators.
ghost use Rattle.form_steps.specs.Steps.{HasRoomAfter, HasRoomToCall, PassesName, PassesOperator, after_operator, after_target};
ghost use Rattle.grammar.specs.Rules.{Sort};
ghost use Rattle.grammar.specs.Values.{spelt};
ghost use Rattle.calculus.specs.Written.{Written};
ghost use Rattle.token_cursor.specs.Cursors.{BeginsWithin, ShortensAs};
ghost use Rattle.std.specs.Prelude.{IfOk};

use crate::next_mark::{opening, skip, then_mark};
use calculus::UnaryOp;
use grammar::{Fault, Mark};
use token_cursor::Cursor;

/// The operator before an operand, which opens its form; `None` where a method call or its target is next.
pub fn begin_operand(cursor: &mut Cursor<'_>, free: u32) -> Result<Option<UnaryOp>, Fault>
    ensures reads { BeginsWithin free cursor.old Sort.Pre after_operator result cursor.new }
    ensures room { IfOk result (HasRoomAfter free) }
    ensures shorter { ShortensAs PassesOperator cursor.old result cursor.new }
{
    if cursor.sees(Mark::Not) {
        return opening(cursor, Mark::Not, free, Some(UnaryOp::Not));
    }
    if !cursor.sees_prefix() {
        return Ok(None);
    }
    skip(cursor, Mark::Minus);
    match cursor.opens_operand(free) {
        Ok(()) => Ok(Some(UnaryOp::Neg)),
        Err(fault) => Err(fault),
    }
}

/// The name of a method that is called on a target of this height, up to the arguments; `None` where no call
/// follows.
pub fn begin_call(cursor: &mut Cursor<'_>, height: u32, free: u32) -> Result<Option<String>, Fault>
    ensures reads { (t : Written) → BeginsWithin free cursor.old (Sort.MethTail (spelt t height))
        (after_target (spelt t height)) result cursor.new }
    ensures room { IfOk result (HasRoomToCall height free) }
    ensures shorter { ShortensAs PassesName cursor.old result cursor.new }
{
    if !cursor.sees(Mark::Dot) {
        return Ok(None);
    }
    match cursor.opens(Mark::Dot, height, free) {
        Ok(()) => {}
        Err(fault) => return Err(fault),
    }
    let name = cursor.word();
    match then_mark(cursor, name, Mark::Open) {
        Ok(name) => Ok(Some(name)),
        Err(fault) => Err(fault),
    }
}
