//! Rows and sequences that have no members.
ghost use Rattle.grammar.specs.Productions.{Prod};
ghost use Rattle.grammar.specs.Values.{patterns, processes};
ghost use Rattle.token_cursor.specs.Cursors.{Reads};
ghost use Rattle.token_cursor.specs.Reading.{bracket_of, of_pat_row, of_row, of_sequence};
ghost use Rattle.std.specs.Prelude.{◌≡◌, ◌≤◌, IfOk, length};

use crate::leaf::rest_closed;
use calculus::{Pat, Proc};
use form_parts::part::{Bracket, Part, Sequence};
use grammar::Fault;
use syntax_forms::{pattern_forms, process_forms};
use token_cursor::cursor::{Cursor, closed, closing_mark};

/// No members.
pub fn row_none(cursor: &mut Cursor<'_>, bracket: Bracket) -> Result<Part<Vec<Proc>>, Fault>
    ensures reads { Reads cursor.old (Prod.row_none processes (bracket_of bracket)) of_row result cursor.new }
    ensures height { IfOk result (λ p. p.height ≡ 0) }
    ensures shorter { length cursor.new.rest.now ≤ length cursor.old.rest.now }
{
    let form = process_forms::no_members(cursor.alloc);
    closed(cursor, form, closing_mark(bracket))
}

/// No members.
pub fn pattern_row_none(cursor: &mut Cursor<'_>, bracket: Bracket) -> Result<Part<Vec<Pat>>, Fault>
    ensures reads { Reads cursor.old (Prod.row_none patterns (bracket_of bracket)) of_pat_row result cursor.new }
    ensures height { IfOk result (λ p. p.height ≡ 0) }
    ensures shorter { length cursor.new.rest.now ≤ length cursor.old.rest.now }
{
    let form = pattern_forms::no_pats(cursor.alloc);
    closed(cursor, form, closing_mark(bracket))
}

/// A remainder without members.
pub fn sequence_only_rest(
    cursor: &mut Cursor<'_>,
    bracket: Bracket,
) -> Result<Part<Sequence>, Fault>
    ensures reads { Reads cursor.old (Prod.seq_rest (bracket_of bracket)) of_sequence result cursor.new }
    ensures height { IfOk result (λ p. p.height ≡ 0) }
    ensures shorter { length cursor.new.rest.now ≤ length cursor.old.rest.now }
{
    let rest = rest_closed(cursor, closing_mark(bracket))?;
    let none = pattern_forms::no_pats(cursor.alloc);
    Ok(pattern_forms::sequence(none, rest))
}
