//! The left side of a bind that has no patterns.
ghost use Rattle.grammar.specs.Choice.{sees_name_pattern};
ghost use Rattle.grammar.specs.Productions.{Prod};
ghost use Rattle.grammar.specs.Rules.{Sort};
ghost use Rattle.token_cursor.specs.Cursors.{Reads, ReadsSort};
ghost use Rattle.token_cursor.specs.Meaning.{view};
ghost use Rattle.token_cursor.specs.Reading.{of_left};
ghost use Rattle.std.specs.Prelude.{◌≡◌, ◌<◌, ◌≤◌, IfOk, false, length};

use crate::leaf::name_rest;
use calculus::Rest;
use form_parts::part::{Left, Part};
use grammar::{Fault, Mark};
use syntax_forms::pattern_forms;
use token_cursor::cursor::Cursor;

/// A remainder or nothing, where no pattern stands.
pub fn left_alone(cursor: &mut Cursor<'_>) -> Result<Part<Left>, Fault>
    requires { sees_name_pattern (view cursor.old.rest.now) ≡ false }
    ensures reads { ReadsSort cursor.old Sort.Left of_left result cursor.new }
    ensures height { IfOk result (λ p. p.height ≡ 0) }
    ensures shorter { length cursor.new.rest.now ≤ length cursor.old.rest.now }
{
    if cursor.sees(Mark::Ellipsis) {
        return left_only_rest(cursor);
    }
    let none = pattern_forms::no_name_pats(cursor.alloc);
    Ok(pattern_forms::left(none, Rest::No))
}

/// A remainder without patterns.
fn left_only_rest(cursor: &mut Cursor<'_>) -> Result<Part<Left>, Fault>
    ensures reads { Reads cursor.old Prod.left_rest of_left result cursor.new }
    ensures height { IfOk result (λ p. p.height ≡ 0) }
    ensures shorter { length cursor.new.rest.now ≤ length cursor.old.rest.now }
{
    let rest = name_rest(cursor)?;
    let none = pattern_forms::no_name_pats(cursor.alloc);
    Ok(pattern_forms::left(none, rest))
}
