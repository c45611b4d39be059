//! Processes in parallel, and the parts of them.
ghost use Rattle.grammar.specs.Rules.{Sort};
ghost use Rattle.grammar.specs.Values.{processes};
ghost use Rattle.process_descent.specs.Parsing.{Parses};
ghost use Rattle.token_cursor.specs.Reading.{of_proc};

use crate::{atom, form, operation};
use calculus::Proc;
use form_ends::{composed, sent, skip_after, then_one_more};
use form_parts::part::{Bracket, Part};
use form_steps::step::TermStep;
use form_steps::{begin_term, close_bundle, first_of, leading_form, quoted_send};
use grammar::{Fault, Mark};
use token_cursor::{Cursor, Level};

/// Par ::= One { "|" One }
#[cycle(parse)]
pub(crate) fn par(cursor: &mut Cursor<'_>, free: u32) -> Result<Part<Proc>, Fault>
    ensures { Parses free (Sort.Par processes) of_proc cursor.old result cursor.new }
{
    let first = one(cursor, free);
    let mut parts = first_of(cursor.alloc, first);
    'each: while skip_after(cursor, &parts, Mark::Bar) {
        let next = one(cursor, free);
        parts = then_one_more(parts, next);
    }
    composed(parts)
}

/// One ::= New | If | Contract | Two
#[cycle(parse)]
pub(crate) fn one(cursor: &mut Cursor<'_>, free: u32) -> Result<Part<Proc>, Fault>
    ensures { Parses free Sort.One of_proc cursor.old result cursor.new }
{
    match leading_form(cursor) {
        Some(key) => form::form(cursor, key, free),
        None => two(cursor, free),
    }
}

/// Two ::= For | Match | Bundle | Name ( "!" | "!!" ) "(" [ Par { "," Par } ] ")" | Or
#[cycle(parse)]
pub(crate) fn two(cursor: &mut Cursor<'_>, free: u32) -> Result<Part<Proc>, Fault>
    ensures { Parses free Sort.Two of_proc cursor.old result cursor.new }
{
    match begin_term(cursor, free) {
        Ok(TermStep::Form(key)) => form::form(cursor, key, free),
        Ok(TermStep::Bundle(rights)) => {
            let body = par(cursor, free - 1);
            close_bundle(cursor, rights, body)
        }
        Ok(TermStep::Quoted) => {
            let below = free - 1;
            let quoted = atom::drop_form(cursor, below);
            let channel = match quoted_send(cursor, quoted) {
                Ok(channel) => channel,
                Err(fault) => return Err(fault),
            };
            let args = atom::row(cursor, Bracket::Round, below);
            sent(channel, args)
        }
        Ok(TermStep::Send(sending)) => {
            let args = atom::row(cursor, Bracket::Round, free - 1);
            sent(sending, args)
        }
        Ok(TermStep::Chain) => operation::level(cursor, Some(Level::Or), free),
        Err(fault) => Err(fault),
    }
}
