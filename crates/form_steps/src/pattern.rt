//! Patterns without `\/` and `/\`.
ghost use Rattle.form_steps.specs.Opening.{Begins};
ghost use Rattle.form_steps.specs.Steps.{HasRoomForPattern, PassesPattern, after_pattern_step, form_of_pattern, type_or, typed_pattern};
ghost use Rattle.grammar.specs.Grammar.{rule};
ghost use Rattle.grammar.specs.Productions.{Prod};
ghost use Rattle.grammar.specs.Rules.{Sort};
ghost use Rattle.grammar.specs.declared.dialect.Dialect.TheVariants.{Tutorial};
ghost use Rattle.token_cursor.specs.Meaning.{view};
ghost use Rattle.token_cursor.specs.Cursors.{BeginsWithin, ShortensAs, ahead, rule_at};
ghost use Rattle.std.specs.Prelude.{◌≡◌, IfOk};

use crate::next_mark::{opening, skip, then_mark};
use crate::step::{PatternStep, PlainPattern};
use calculus::Simple;
use form_parts::part::Bracket;
use grammar::{Fault, Mark};
use token_cursor::Cursor;

/// PNot ::= "~" PNot | PAtom, up to its first constituent
pub fn begin_pattern(cursor: &mut Cursor<'_>, free: u32) -> Result<PatternStep, Fault>
    ensures reads { BeginsWithin free cursor.old Sort.PNot after_pattern_step result cursor.new }
    ensures room { IfOk result (HasRoomForPattern free) }
    ensures shorter { ShortensAs PassesPattern cursor.old result cursor.new }
{
    if !cursor.sees(Mark::Tilde) {
        return begin_pattern_atom(cursor, free);
    }
    opening(cursor, Mark::Tilde, free, PatternStep::Not)
}

/// The simple type that is next.
fn simple_type(cursor: &Cursor<'_>) -> Option<Simple>
    ensures { (p : Prod Sort.PAtom) → typed_pattern (view cursor.now.rest.now) p ≡ type_or result p }
{
    if cursor.sees(Mark::Bool) {
        return Some(Simple::Bool);
    }
    if cursor.sees(Mark::Int) {
        return Some(Simple::Int);
    }
    if cursor.sees(Mark::String) {
        return Some(Simple::Str);
    }
    if cursor.sees(Mark::Uri) {
        return Some(Simple::Uri);
    }
    if cursor.sees(Mark::ByteArray) {
        return Some(Simple::Bytes);
    }
    None
}

/// PAtom, up to its first constituent
fn begin_pattern_atom(cursor: &mut Cursor<'_>, free: u32) -> Result<PatternStep, Fault>
    ensures { Begins after_pattern_step HasRoomForPattern PassesPattern free (rule_at cursor.old Sort.PAtom) cursor.old result cursor.new }
{
    if cursor.sees_word() {
        return Ok(PatternStep::Plain(PlainPattern::Word));
    }
    if cursor.sees(Mark::Underscore) {
        return Ok(PatternStep::Plain(PlainPattern::Any));
    }
    match simple_type(cursor) {
        Some(simple) => Ok(PatternStep::Plain(PlainPattern::Type(simple))),
        None => begin_pattern_form(cursor, free),
    }
}

/// A pattern that is no variable, no `_` and no simple type, up to its first constituent.
fn begin_pattern_form(cursor: &mut Cursor<'_>, free: u32) -> Result<PatternStep, Fault>
    ensures { Begins after_pattern_step HasRoomForPattern PassesPattern free (rule Tutorial (form_of_pattern (ahead cursor.old))) cursor.old result cursor.new }
{
    if cursor.sees(Mark::Assign) {
        return begin_same(cursor, free);
    }
    if cursor.sees(Mark::Nil) {
        return Ok(PatternStep::Plain(PlainPattern::Nil));
    }
    if cursor.sees(Mark::Open) {
        return opening(cursor, Mark::Open, free, PatternStep::Group);
    }
    if cursor.sees(Mark::OpenBrace) {
        return begin_pattern_block(cursor, free);
    }
    if cursor.sees(Mark::OpenSquare) {
        return opening(
            cursor,
            Mark::OpenSquare,
            free,
            PatternStep::Members(Bracket::Square),
        );
    }
    if cursor.sees(Mark::Set) {
        let set = opening(
            cursor,
            Mark::Set,
            free,
            PatternStep::Members(Bracket::Round),
        );
        return then_mark(cursor, set, Mark::Open);
    }
    Ok(PatternStep::Plain(PlainPattern::Ground))
}

/// A `=`, and what follows it.
fn begin_same(cursor: &mut Cursor<'_>, free: u32) -> Result<PatternStep, Fault>
    ensures { Begins after_pattern_step HasRoomForPattern PassesPattern free (rule Tutorial Prod.patom_same) cursor.old result cursor.new }
{
    match cursor.opens(Mark::Assign, 0, free) {
        Ok(()) => {}
        Err(fault) => return Err(fault),
    }
    if cursor.sees(Mark::Star) {
        return Ok(PatternStep::Plain(PlainPattern::SameDropped));
    }
    if skip(cursor, Mark::OpenBrace) {
        return Ok(PatternStep::Same);
    }
    Ok(PatternStep::Plain(PlainPattern::SameWord))
}

/// A `{`, and whether a pattern follows.
fn begin_pattern_block(cursor: &mut Cursor<'_>, free: u32) -> Result<PatternStep, Fault>
    ensures { Begins after_pattern_step HasRoomForPattern PassesPattern free (rule Tutorial Prod.patom_brace) cursor.old result cursor.new }
{
    match cursor.opens(Mark::OpenBrace, 0, free) {
        Ok(()) => {}
        Err(fault) => return Err(fault),
    }
    if cursor.sees(Mark::CloseBrace) {
        return Ok(PatternStep::Plain(PlainPattern::EmptyMap));
    }
    if cursor.sees(Mark::Ellipsis) {
        return Ok(PatternStep::Plain(PlainPattern::RestMap));
    }
    Ok(PatternStep::Block)
}
