//! Operators and method calls.
ghost use Rattle.grammar.specs.Rules.{Sort};
ghost use Rattle.token_cursor.specs.Levels.{level_or_prefix};
ghost use Rattle.process_descent.specs.Parsing.{Parses};
ghost use Rattle.token_cursor.specs.Reading.{of_proc};

use crate::atom;
use calculus::Proc;
use form_ends::{Chain, begin_right, called, next_call, operated, unary_with_operand};
use form_parts::part::{Bracket, Part};
use form_steps::begin_operand;
use grammar::Fault;
use token_cursor::{Cursor, Level};

/// The operators of a level and their operands, which lean to the left; or what stands on both sides of the
/// tightest ones.
#[cycle(parse)]
pub(crate) fn level(
    cursor: &mut Cursor<'_>,
    within: Option<Level>,
    free: u32,
) -> Result<Part<Proc>, Fault>
    ensures { Parses free (level_or_prefix within) of_proc cursor.old result cursor.new }
{
    let own = match within {
        Some(level) => level,
        None => return pre(cursor, free),
    };
    let mut left = level(cursor, own.inner(), free);
    'operators: loop {
        match begin_right(cursor, own, left, free) {
            Chain::Ends(result) => return result,
            Chain::GoesOn(first, op) => {
                let right = level(cursor, own.right(), free - 1);
                left = operated(cursor.alloc, op, first, right);
            }
        }
    }
}

/// Pre ::= "not" Pre | "-" Pre | Meth, where a Pre after "-" doesn't begin with an Int
/// Meth ::= Drop { "." Word "(" [ Par { "," Par } ] ")" }
#[cycle(parse)]
pub(crate) fn pre(cursor: &mut Cursor<'_>, free: u32) -> Result<Part<Proc>, Fault>
    ensures { Parses free Sort.Pre of_proc cursor.old result cursor.new }
{
    match begin_operand(cursor, free) {
        Ok(None) => {}
        Ok(Some(op)) => {
            let operand = pre(cursor, free - 1);
            return unary_with_operand(cursor.alloc, op, operand);
        }
        Err(fault) => return Err(fault),
    }
    let mut target = atom::drop_form(cursor, free);
    'calls: loop {
        match next_call(cursor, target, free) {
            Chain::Ends(result) => return result,
            Chain::GoesOn(first, name) => {
                let args = atom::row(cursor, Bracket::Round, free - 1);
                target = called(cursor.alloc, name, first, args);
            }
        }
    }
}
