//! The patterns of a bind.
ghost use Rattle.grammar.specs.Rules.{Sort};
ghost use Rattle.process_descent.specs.Parsing.{Parses};
ghost use Rattle.token_cursor.specs.Reading.{of_left};

use crate::pattern;
use calculus::NamePat;
use form_ends::{close_left, skip_comma_after, then_one_more};
use form_parts::part::{Left, Part};
use form_steps::first_of;
use grammar::Fault;
use leaf_forms::left_alone;
use token_cursor::Cursor;

/// Left ::= [ PName { "," PName } ] [ [","] "..." "@" ( Word | "_" ) ], with the comma only after a PName
#[cycle(parse)]
pub(crate) fn left(cursor: &mut Cursor<'_>, free: u32) -> Result<Part<Left>, Fault>
    ensures { Parses free Sort.Left of_left cursor.old result cursor.new }
{
    if !cursor.sees_name_pattern() {
        return left_alone(cursor);
    }
    let first = pattern::pattern_name(cursor, free);
    let mut pats = first_of(cursor.alloc, first);
    'each: while skip_comma_after(cursor, &pats) {
        let next = pattern::pattern_name(cursor, free);
        pats = then_one_more(pats, next);
    }
    close_left(cursor, pats)
}
