//! Marks of which one or two are next.
ghost use Rattle.form_ends.specs.Reading.{after_in};
ghost use Rattle.grammar.specs.Descent.{Takes};
ghost use Rattle.grammar.specs.Rules.{Rule, Sort, last, separator_mark, sign};
ghost use Rattle.grammar.specs.Terminals.{Terminal};
ghost use Rattle.token_cursor.specs.Cursors.{Continues};
ghost use Rattle.token_cursor.specs.Meaning.{view};
ghost use Rattle.token_cursor.specs.Reading.{Turns, sees_bind, separator_of};
ghost use Rattle.std.specs.Prelude.{◌≡◌, ◌<◌, ◌≤◌, ℕ, [], IfOk, IsOk, List, OnOk, false, length, true};

use calculus::Decl;
use form_parts::part::Separator;
use form_steps::{skip, then_mark};
use grammar::{Fault, Mark};
use leaf_forms::declarations;
use token_cursor::Cursor;
use token_cursor::cursor::closed;

/// The mark of a separator.
fn separator_mark(separator: Separator) -> Mark
    ensures { result ≡ separator_mark (separator_of separator) }
{
    match separator {
        Separator::Semicolon => Mark::Semicolon,
        Separator::Ampersand => Mark::Ampersand,
    }
}

/// Takes this separator if it is next and so many more binds may stand, and says whether it did.
fn skip_separator(cursor: &mut Cursor<'_>, separator: Separator, more: u32) -> bool
    ensures is { result ≡ sees_bind (separator_of separator) more (view cursor.old.rest.now) }
    ensures takes { result ≡ true → Takes (separator_mark (separator_of separator)) (view cursor.old.rest.now) (view cursor.new.rest.now) }
    ensures some { result ≡ true → 0 < more }
    ensures less { result ≡ true → length cursor.new.rest.now < length cursor.old.rest.now }
    ensures stays { result ≡ false → view cursor.new.rest.now ≡ view cursor.old.rest.now }
    ensures shorter { length cursor.new.rest.now ≤ length cursor.old.rest.now }
{
    if !cursor.sees_bind(separator, more) {
        return false;
    }
    skip(cursor, separator_mark(separator))
}

/// The same where what stands before it was read.
pub fn skip_separator_after<T>(
    cursor: &mut Cursor<'_>,
    before: &Result<T, Fault>,
    separator: Separator,
    more: u32,
) -> bool
    ensures after { result ≡ true → IsOk before.now }
    ensures is { result ≡ true → sees_bind (separator_of separator) more (view cursor.old.rest.now) ≡ true }
    ensures takes { result ≡ true → Takes (separator_mark (separator_of separator)) (view cursor.old.rest.now) (view cursor.new.rest.now) }
    ensures some { result ≡ true → 0 < more }
    ensures less { result ≡ true → length cursor.new.rest.now < length cursor.old.rest.now }
    ensures stays { result ≡ false → view cursor.new.rest.now ≡ view cursor.old.rest.now }
    ensures ends { result ≡ false → OnOk before.now (sees_bind (separator_of separator) more (view cursor.old.rest.now) ≡ false) }
    ensures shorter { length cursor.new.rest.now ≤ length cursor.old.rest.now }
{
    if before.is_err() {
        return false;
    }
    skip_separator(cursor, separator, more)
}

/// What was read, and these two marks after it, which are taken; where one is missing, what was read is let go.
pub fn then_marks<T: Drop>(
    cursor: &mut Cursor<'_>,
    read: Result<T, Fault>,
    first: Mark,
    second: Mark,
) -> Result<T, Fault>
    ensures reads { (free : ℕ) (r : Rule) (ts : List Terminal) (after : T → Rule) →
        Turns free r (λ x. sign first (sign second (after x))) ts read (view cursor.old.rest.now) →
        Turns free r after ts result (view cursor.new.rest.now) }
    ensures same { IfOk result (λ x. read ≡ Ok x) }
    ensures shorter { length cursor.new.rest.now ≤ length cursor.old.rest.now }
{
    let taken = then_mark(cursor, read, first);
    then_mark(cursor, taken, second)
}

/// The names of a `new`, up to the process.
pub(crate) fn declared_names(cursor: &mut Cursor<'_>) -> Result<Vec<Decl>, Fault>
    ensures reads { Continues cursor.old (last (Sort.Decl [])) after_in result cursor.new }
    ensures shorter { length cursor.new.rest.now ≤ length cursor.old.rest.now }
{
    let names = declarations(cursor)?;
    closed(cursor, names, Mark::In)
}
