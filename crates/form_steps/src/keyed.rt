//! Forms that begin with a key, from the key on.
ghost use Rattle.form_steps.specs.Parts.{after_key, form_sort, has_parenthesis, key_mark};
ghost use Rattle.token_cursor.specs.Cursors.{BeginsWithin, Shortens};
ghost use Rattle.std.specs.Prelude.{◌≡◌, ◌<◌, IfOk};

use crate::next_mark::then_mark;
use crate::step::FormKey;
use grammar::{Fault, Mark};
use token_cursor::Cursor;

/// The key of a form.
fn key_mark(key: FormKey) -> Mark
    ensures { result ≡ key_mark key }
{
    match key {
        FormKey::New => Mark::New,
        FormKey::If => Mark::If,
        FormKey::Contract => Mark::Contract,
        FormKey::For => Mark::For,
        FormKey::Match => Mark::Match,
    }
}

/// Whether a parenthesis follows the key.
fn has_parenthesis(key: FormKey) -> bool
    ensures { result ≡ has_parenthesis key }
{
    matches!(key, FormKey::If | FormKey::For)
}

/// The key of a form, which opens it, and the parenthesis after it, where one follows.
pub fn begin_keyed(cursor: &mut Cursor<'_>, key: FormKey, free: u32) -> Result<(), Fault>
    ensures reads { BeginsWithin free cursor.old (form_sort key) (λ _. after_key key) result cursor.new }
    ensures room { IfOk result (λ _. 0 < free) }
    ensures shorter { Shortens cursor.old result cursor.new }
{
    let opened = cursor.opens(key_mark(key), 0, free);
    if !has_parenthesis(key) {
        return opened;
    }
    then_mark(cursor, opened, Mark::Open)
}
