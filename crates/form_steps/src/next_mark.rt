//! Marks that stand next, or may.
ghost use Rattle.grammar.specs.Descent.{Takes};
ghost use Rattle.grammar.specs.Grammar.{arrow_mark};
ghost use Rattle.grammar.specs.Terminals.{sees};
ghost use Rattle.grammar.specs.declared.mark.Mark.TheVariants as marks;
ghost use Rattle.token_cursor.specs.Meaning.{view};
ghost use Rattle.token_cursor.specs.Reading.{sees_member};
ghost use Rattle.form_steps.specs.Handing.{TakesMarkAfter};
ghost use Rattle.form_steps.specs.Opening.{OpensWith};
ghost use Rattle.token_cursor.specs.Cursors.{Shortens};
ghost use Rattle.std.specs.Prelude.{◌≡◌, ◌<◌, ◌≤◌, IfOk, false, length, true};

use calculus::Kind;
use form_parts::parts;
use grammar::{Fault, Mark};
use token_cursor::Cursor;

/// Takes this mark if it is next, and says whether it was.
pub fn skip(cursor: &mut Cursor<'_>, mark: Mark) -> bool
    ensures is { result ≡ sees mark (view cursor.old.rest.now) }
    ensures takes { result ≡ true → Takes mark (view cursor.old.rest.now) (view cursor.new.rest.now) }
    ensures less { result ≡ true → length cursor.new.rest.now < length cursor.old.rest.now }
    ensures stays { result ≡ false → view cursor.new.rest.now ≡ view cursor.old.rest.now }
    ensures shorter { length cursor.new.rest.now ≤ length cursor.old.rest.now }
{
    cursor.expect(mark).is_ok()
}

/// Takes a comma if it is next and no remainder follows it, and says whether it did.
pub fn skip_comma(cursor: &mut Cursor<'_>) -> bool
    ensures is { result ≡ sees_member (view cursor.old.rest.now) }
    ensures takes { result ≡ true → Takes marks.Comma (view cursor.old.rest.now) (view cursor.new.rest.now) }
    ensures less { result ≡ true → length cursor.new.rest.now < length cursor.old.rest.now }
    ensures stays { result ≡ false → view cursor.new.rest.now ≡ view cursor.old.rest.now }
    ensures shorter { length cursor.new.rest.now ≤ length cursor.old.rest.now }
{
    if !cursor.sees_member() {
        return false;
    }
    skip(cursor, Mark::Comma)
}

/// The arrow of a kind of receive.
pub fn arrow_mark(kind: Kind) -> Mark
    ensures { result ≡ arrow_mark kind }
{
    match kind {
        Kind::Linear => Mark::Arrow,
        Kind::Persistent => Mark::LessEqual,
        Kind::Peek => Mark::PeekArrow,
    }
}

/// What was read, and this mark after it, which is taken; where it is missing, what was read is let go.
pub fn then_mark<T: Drop>(
    cursor: &mut Cursor<'_>,
    read: Result<T, Fault>,
    mark: Mark,
) -> Result<T, Fault>
    ensures reads { TakesMarkAfter cursor.old read mark result cursor.new }
    ensures same { IfOk result (λ x. read ≡ Ok x) }
    ensures shorter { Shortens cursor.old result cursor.new }
{
    match read {
        Ok(value) => match cursor.expect(mark) {
            Ok(()) => Ok(value),
            Err(fault) => parts::give_up(value, fault),
        },
        Err(fault) => Err(fault),
    }
}

/// What was made, once this mark is taken, which opens a form; where that fails, what was made is let go.
pub(crate) fn opening<T: Drop>(
    cursor: &mut Cursor<'_>,
    mark: Mark,
    free: u32,
    made: T,
) -> Result<T, Fault>
    ensures reads { OpensWith cursor.old made mark free result cursor.new }
    ensures shorter { Shortens cursor.old result cursor.new }
{
    match cursor.opens(mark, 0, free) {
        Ok(()) => Ok(made),
        Err(fault) => parts::give_up(made, fault),
    }
}
