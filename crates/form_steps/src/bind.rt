//! The binds of a receive.
ghost use Rattle.grammar.specs.Rules.{Sort};
ghost use Rattle.grammar.specs.Values.{Spelt};
ghost use Rattle.calculus.specs.declared.plain.Kind.{Kind};
ghost use Rattle.token_cursor.specs.Reading.{separator_of};
ghost use Rattle.token_cursor.specs.Cursors.{rule_at};
ghost use Rattle.std.specs.Prelude.{◌≡◌, ◌∷◌, []};

use form_parts::part::Separator;
use grammar::Mark;
use token_cursor::Cursor;

/// The separator after a first bind; where none is next, the semicolon.
pub fn next_separator(cursor: &Cursor<'_>) -> Separator
    ensures { (k : Kind) (b : Spelt) → rule_at cursor.now (Sort.FirstTail k b) ≡
        rule_at cursor.now (Sort.BindsTail k (separator_of result) 15 (b.tree ∷ []) b.height) }
{
    if cursor.sees(Mark::Semicolon) {
        return Separator::Semicolon;
    }
    if cursor.sees(Mark::Ampersand) {
        return Separator::Ampersand;
    }
    Separator::Semicolon
}
