//! Names, parentheses, blocks, collections and rows.
ghost use Rattle.grammar.specs.Rules.{Sort, last, under};
ghost use Rattle.grammar.specs.Values.{processes};
ghost use Rattle.process_descent.specs.Parsing.{Parses, ParsesRule};
ghost use Rattle.token_cursor.specs.Reading.{bracket_of, of_name, of_proc, of_row};
ghost use Rattle.std.specs.Prelude.{◌<◌};

use crate::process;
use calculus::{Name, Proc};
use form_ends::{
    close, close_map, first_pair, plain_process, quoted_name, skip_after, then_one_more, tuple,
};
use form_parts::part::{Bracket, Part};
use form_parts::parts;
use form_steps::step::ProcessStep;
use form_steps::{begin_atom, dropped_quote, first_of, members, paired, skip, then_mark};
use grammar::{Fault, Mark};
use leaf_forms::{name_word, row_none};
use token_cursor::Cursor;
use token_cursor::cursor::closing_mark;

/// Drop ::= "*" Dropped | Atom
#[cycle(parse)]
pub(crate) fn drop_form(cursor: &mut Cursor<'_>, free: u32) -> Result<Part<Proc>, Fault>
    ensures { Parses free Sort.Drop of_proc cursor.old result cursor.new }
{
    match begin_atom(cursor, free) {
        Ok(ProcessStep::Plain(plain)) => plain_process(cursor, plain),
        Ok(ProcessStep::Dropped) => {
            let quoted = drop_form(cursor, free - 1);
            dropped_quote(cursor.alloc, quoted)
        }
        Ok(ProcessStep::Group) => {
            let below = free - 1;
            let inner = process::par(cursor, below);
            if !skip_after(cursor, &inner, Mark::Comma) {
                return close(cursor, inner, Mark::Close);
            }
            let row = row(cursor, Bracket::Round, below);
            tuple(inner, row)
        }
        Ok(ProcessStep::Block) => block(cursor, free),
        Ok(ProcessStep::Members(bracket)) => {
            let row = row(cursor, bracket, free - 1);
            members(bracket, row)
        }
        Err(fault) => Err(fault),
    }
}

/// Name ::= Word | "@" Drop
#[cycle(parse)]
pub(crate) fn name(cursor: &mut Cursor<'_>, free: u32) -> Result<Part<Name>, Fault>
    ensures { Parses free Sort.Name of_name cursor.old result cursor.new }
{
    if !skip(cursor, Mark::At) {
        return name_word(cursor);
    }
    let quoted = drop_form(cursor, free);
    quoted_name(cursor.alloc, quoted)
}

/// The first process in braces, and what follows it: the end, or the pairs of a map.
#[cycle(parse)]
pub(crate) fn block(cursor: &mut Cursor<'_>, free: u32) -> Result<Part<Proc>, Fault>
    requires { 0 < free }
    ensures { ParsesRule free (under (Sort.Par processes) (λ p. last (Sort.BraceTail p))) of_proc cursor.old result cursor.new }
{
    let below = free - 1;
    let first = process::par(cursor, below);
    if !skip_after(cursor, &first, Mark::Colon) {
        return close(cursor, first, Mark::CloseBrace);
    }
    let value = process::par(cursor, below);
    let mut pairs = first_pair(cursor.alloc, first, value);
    'each: while skip_after(cursor, &pairs, Mark::Comma) {
        let found = process::par(cursor, below);
        let key = match then_mark(cursor, found, Mark::Colon) {
            Ok(key) => key,
            Err(fault) => return parts::give_up(pairs, fault),
        };
        let next = paired(key, process::par(cursor, below));
        pairs = then_one_more(pairs, next);
    }
    close_map(cursor, pairs)
}

/// Row ::= [ Par { "," Par } ], and the sign that closes it
#[cycle(parse)]
pub(crate) fn row(
    cursor: &mut Cursor<'_>,
    bracket: Bracket,
    free: u32,
) -> Result<Part<Vec<Proc>>, Fault>
    ensures { Parses free (Sort.Row processes (bracket_of bracket)) of_row cursor.old result cursor.new }
{
    if cursor.sees_closing(bracket) {
        return row_none(cursor, bracket);
    }
    let first = process::par(cursor, free);
    let mut members = first_of(cursor.alloc, first);
    'each: while skip_after(cursor, &members, Mark::Comma) {
        let next = process::par(cursor, free);
        members = then_one_more(members, next);
    }
    then_mark(cursor, members, closing_mark(bracket))
}
