//! Processes without operators.
ghost use Rattle.form_steps.specs.Opening.{Begins};
ghost use Rattle.form_steps.specs.Steps.{HasRoomFor, Passes, after_process_step};
ghost use Rattle.grammar.specs.Grammar.{rule};
ghost use Rattle.grammar.specs.Productions.{Prod};
ghost use Rattle.grammar.specs.Rules.{Sort};
ghost use Rattle.grammar.specs.declared.dialect.Dialect.TheVariants.{Tutorial};
ghost use Rattle.token_cursor.specs.Cursors.{BeginsWithin, ShortensAs, rule_at};
ghost use Rattle.std.specs.Prelude.{IfOk};

use crate::next_mark::{opening, skip, then_mark};
use crate::step::{PlainProcess, ProcessStep};
use form_parts::part::Bracket;
use grammar::{Fault, Mark};
use token_cursor::Cursor;

/// Drop ::= "*" Dropped | Atom, up to its first constituent
pub fn begin_atom(cursor: &mut Cursor<'_>, free: u32) -> Result<ProcessStep, Fault>
    ensures reads { BeginsWithin free cursor.old Sort.Drop after_process_step result cursor.new }
    ensures room { IfOk result (HasRoomFor free) }
    ensures shorter { ShortensAs Passes cursor.old result cursor.new }
{
    if !cursor.sees(Mark::Star) {
        return begin_form(cursor, free);
    }
    skip(cursor, Mark::Star);
    if !cursor.sees(Mark::At) {
        return Ok(ProcessStep::Plain(PlainProcess::Dropped));
    }
    opening(cursor, Mark::At, free, ProcessStep::Dropped)
}

/// Atom ::= Word | Ground | "Nil" | "(" Par Group | "{" Brace | "[" Row "]" | "Set" "(" Row ")", up to its
/// first constituent
fn begin_form(cursor: &mut Cursor<'_>, free: u32) -> Result<ProcessStep, Fault>
    ensures { Begins after_process_step HasRoomFor Passes free (rule_at cursor.old Sort.Atom) cursor.old result cursor.new }
{
    if cursor.sees_word() {
        return Ok(ProcessStep::Plain(PlainProcess::Word));
    }
    if cursor.sees(Mark::Nil) {
        return Ok(ProcessStep::Plain(PlainProcess::Nil));
    }
    if cursor.sees(Mark::Open) {
        return opening(cursor, Mark::Open, free, ProcessStep::Group);
    }
    if cursor.sees(Mark::OpenBrace) {
        return begin_block(cursor, free);
    }
    if cursor.sees(Mark::OpenSquare) {
        return opening(
            cursor,
            Mark::OpenSquare,
            free,
            ProcessStep::Members(Bracket::Square),
        );
    }
    if cursor.sees(Mark::Set) {
        let set = opening(
            cursor,
            Mark::Set,
            free,
            ProcessStep::Members(Bracket::Round),
        );
        return then_mark(cursor, set, Mark::Open);
    }
    Ok(ProcessStep::Plain(PlainProcess::Ground))
}

/// A `{`, and whether a process follows.
fn begin_block(cursor: &mut Cursor<'_>, free: u32) -> Result<ProcessStep, Fault>
    ensures { Begins after_process_step HasRoomFor Passes free (rule Tutorial Prod.atom_brace) cursor.old result cursor.new }
{
    match cursor.opens(Mark::OpenBrace, 0, free) {
        Ok(()) => {}
        Err(fault) => return Err(fault),
    }
    if cursor.sees(Mark::CloseBrace) {
        return Ok(ProcessStep::Plain(PlainProcess::EmptyMap));
    }
    Ok(ProcessStep::Block)
}
