//! The patterns of values: groups, lists, sets, maps and processes that are to be the same.
ghost use Rattle.grammar.specs.Rules.{Sort, last, under};
ghost use Rattle.grammar.specs.Values.{patterns};
ghost use Rattle.process_descent.specs.Parsing.{Parses, ParsesRule};
ghost use Rattle.token_cursor.specs.Reading.{bracket_of, of_pat, of_pat_row, of_sequence};
ghost use Rattle.std.specs.Prelude.{◌<◌};

use crate::pattern;
use calculus::Pat;
use form_ends::{
    close, close_pairs, close_sequence, first_pair, skip_after, skip_comma_after, then_one_more,
};
use form_parts::part::{Bracket, Part, Sequence};
use form_parts::parts;
use form_steps::{first_of, paired, then_mark};
use grammar::{Fault, Mark};
use leaf_forms::{pattern_row_none, sequence_none, sequence_only_rest};
use token_cursor::Cursor;
use token_cursor::cursor::closing_mark;

/// Row ::= [ PPar { "," PPar } ], and the sign that closes it
#[cycle(parse)]
pub(crate) fn pattern_row(
    cursor: &mut Cursor<'_>,
    bracket: Bracket,
    free: u32,
) -> Result<Part<Vec<Pat>>, Fault>
    ensures { Parses free (Sort.Row patterns (bracket_of bracket)) of_pat_row cursor.old result cursor.new }
{
    if cursor.sees_closing(bracket) {
        return pattern_row_none(cursor, bracket);
    }
    let first = pattern::pattern_par(cursor, free);
    let mut members = first_of(cursor.alloc, first);
    'each: while skip_after(cursor, &members, Mark::Comma) {
        let next = pattern::pattern_par(cursor, free);
        members = then_one_more(members, next);
    }
    then_mark(cursor, members, closing_mark(bracket))
}

/// PSeq ::= [ PPar { "," PPar } ] [ [","] "..." ( Word | "_" ) ], with the comma only after a PPar, and the
/// sign that closes it
#[cycle(parse)]
pub(crate) fn pattern_sequence(
    cursor: &mut Cursor<'_>,
    bracket: Bracket,
    free: u32,
) -> Result<Part<Sequence>, Fault>
    ensures { Parses free (Sort.Seq (bracket_of bracket)) of_sequence cursor.old result cursor.new }
{
    if cursor.sees_closing(bracket) {
        return sequence_none(cursor, bracket);
    }
    if cursor.sees(Mark::Ellipsis) {
        return sequence_only_rest(cursor, bracket);
    }
    let first = pattern::pattern_par(cursor, free);
    let mut pats = first_of(cursor.alloc, first);
    'each: while skip_comma_after(cursor, &pats) {
        let next = pattern::pattern_par(cursor, free);
        pats = then_one_more(pats, next);
    }
    close_sequence(cursor, bracket, pats)
}

/// The first pattern in braces, and what follows it: the end, or the pairs of a map and its remainder.
#[cycle(parse)]
pub(crate) fn pattern_block(cursor: &mut Cursor<'_>, free: u32) -> Result<Part<Pat>, Fault>
    requires { 0 < free }
    ensures { ParsesRule free (under (Sort.Par patterns) (λ p. last (Sort.PBraceTail p))) of_pat cursor.old result cursor.new }
{
    let below = free - 1;
    let first = pattern::pattern_par(cursor, below);
    if !skip_after(cursor, &first, Mark::Colon) {
        return close(cursor, first, Mark::CloseBrace);
    }
    let value = pattern::pattern_par(cursor, below);
    let mut pairs = first_pair(cursor.alloc, first, value);
    'each: while skip_comma_after(cursor, &pairs) {
        let found = pattern::pattern_par(cursor, below);
        let key = match then_mark(cursor, found, Mark::Colon) {
            Ok(key) => key,
            Err(fault) => return parts::give_up(pairs, fault),
        };
        let next = paired(key, pattern::pattern_par(cursor, below));
        pairs = then_one_more(pairs, next);
    }
    close_pairs(cursor, pairs)
}
