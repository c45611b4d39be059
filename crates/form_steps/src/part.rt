//! The parts of a process or a pattern: keyed forms, bundles, sends and chains of operators.
ghost use Rattle.form_steps.specs.Parts.{HasRoomForPart, HasRoomForTerm, PassesPart, PassesTerm, after_part_step, after_term_step, after_leading};
ghost use Rattle.grammar.specs.Rules.{Sort};
ghost use Rattle.grammar.specs.Values.{Side};
ghost use Rattle.token_cursor.specs.Meaning.{view};
ghost use Rattle.std.specs.Prelude.{◌≡◌, ◌<◌, IfOk};
ghost use Rattle.form_steps.specs.Parts.{after_bundle, keyed_part, part_or};
ghost use Rattle.grammar.specs.Productions.{Prod};
ghost use Rattle.token_cursor.specs.Cursors.{BeginsWithin, Shortens, ShortensAs, rule_at};

use crate::next_mark::then_mark;
use crate::send::{begin_any_send, begin_send, begin_send_pattern};
use crate::step::{FormKey, PartStep, TermStep};
use calculus::Rights;
use grammar::{Fault, Mark};
use token_cursor::Cursor;

/// The form with which a process begins that may end in a `|`.
pub fn leading_form(cursor: &Cursor<'_>) -> Option<FormKey>
    ensures { rule_at cursor.now Sort.One ≡ after_leading result }
{
    if cursor.sees(Mark::New) {
        return Some(FormKey::New);
    }
    if cursor.sees(Mark::If) {
        return Some(FormKey::If);
    }
    if cursor.sees(Mark::Contract) {
        return Some(FormKey::Contract);
    }
    None
}

/// Two ::= For | Match | Bundle | Name ( "!" | "!!" ) "(" [ Par { "," Par } ] ")" | Or, up to its first constituent
pub fn begin_term(cursor: &mut Cursor<'_>, free: u32) -> Result<TermStep, Fault>
    ensures reads { BeginsWithin free cursor.old Sort.Two after_term_step result cursor.new }
    ensures room { IfOk result (HasRoomForTerm free) }
    ensures shorter { ShortensAs PassesTerm cursor.old result cursor.new }
{
    if cursor.sees(Mark::For) {
        return Ok(TermStep::Form(FormKey::For));
    }
    if cursor.sees(Mark::Match) {
        return Ok(TermStep::Form(FormKey::Match));
    }
    if cursor.sees_bundle() {
        return match begin_bundle(cursor, free) {
            Ok(rights) => Ok(TermStep::Bundle(rights)),
            Err(fault) => Err(fault),
        };
    }
    if cursor.sees(Mark::At) {
        return match cursor.opens(Mark::At, 0, free) {
            Ok(()) => Ok(TermStep::Quoted),
            Err(fault) => Err(fault),
        };
    }
    if cursor.sees_send() {
        return match begin_send(cursor, free) {
            Ok(sending) => Ok(TermStep::Send(sending)),
            Err(fault) => Err(fault),
        };
    }
    Ok(TermStep::Chain)
}

/// The key of a bundle and a brace.
fn begin_bundle(cursor: &mut Cursor<'_>, free: u32) -> Result<Rights, Fault>
    ensures reads { (side : Side) → BeginsWithin free cursor.old (Sort.Bundle side) (after_bundle side) result cursor.new }
    ensures room { IfOk result (λ _. 0 < free) }
    ensures shorter { Shortens cursor.old result cursor.new }
{
    let rights = cursor.rights();
    let opened = cursor.opens_bundle(rights, free);
    match then_mark(cursor, opened, Mark::OpenBrace) {
        Ok(()) => Ok(rights),
        Err(fault) => Err(fault),
    }
}

/// The keyed form of processes that a pattern begins with.
fn keyed_form(cursor: &Cursor<'_>) -> Option<FormKey>
    ensures { (p : Prod Sort.POne) → keyed_part (view cursor.now.rest.now) p ≡ part_or result p }
{
    if cursor.sees(Mark::New) {
        return Some(FormKey::New);
    }
    if cursor.sees(Mark::If) {
        return Some(FormKey::If);
    }
    if cursor.sees(Mark::Contract) {
        return Some(FormKey::Contract);
    }
    if cursor.sees(Mark::For) {
        return Some(FormKey::For);
    }
    if cursor.sees(Mark::Match) {
        return Some(FormKey::Match);
    }
    None
}

/// POne ::= New | If | Contract | For | Match | Bundle | PName ( "!" | "!!" ) "(" [ PPar { "," PPar } ] ")" | PAlt,
/// up to its first constituent
pub fn begin_part(cursor: &mut Cursor<'_>, free: u32) -> Result<PartStep, Fault>
    ensures reads { BeginsWithin free cursor.old Sort.POne after_part_step result cursor.new }
    ensures room { IfOk result (HasRoomForPart free) }
    ensures shorter { ShortensAs PassesPart cursor.old result cursor.new }
{
    if let Some(key) = keyed_form(cursor) {
        return Ok(PartStep::Form(key));
    }
    if cursor.sees_bundle() {
        return match begin_bundle(cursor, free) {
            Ok(rights) => Ok(PartStep::Bundle(rights)),
            Err(fault) => Err(fault),
        };
    }
    if cursor.sees(Mark::At) {
        return match cursor.opens(Mark::At, 0, free) {
            Ok(()) => Ok(PartStep::Quoted),
            Err(fault) => Err(fault),
        };
    }
    if cursor.sees_any_send() {
        return match begin_any_send(cursor, free) {
            Ok(sending) => Ok(PartStep::Send(sending)),
            Err(fault) => Err(fault),
        };
    }
    if cursor.sees_send() {
        return match begin_send_pattern(cursor, free) {
            Ok(sending) => Ok(PartStep::Send(sending)),
            Err(fault) => Err(fault),
        };
    }
    Ok(PartStep::Alternative)
}
