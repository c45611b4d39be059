//! How the forms begin that a key begins.
ghost use Rattle.form_ends.specs.Reading.{after_form_step};
ghost use Rattle.form_steps.specs.Parts.{form_sort};
ghost use Rattle.token_cursor.specs.Cursors.{BeginsWithin, Shortens};
ghost use Rattle.std.specs.Prelude.{◌<◌, IfOk};

use crate::next_marks::declared_names;
use calculus::Decl;
use form_steps::begin_keyed;
use form_steps::step::FormKey;
use grammar::Fault;
use token_cursor::Cursor;

/// How a form begins that a key begins. What stands before its first constituent was taken.
pub enum FormStep {
    /// The process in which these names are new is next.
    New(Vec<Decl>),
    /// The condition of an `if` is next.
    If,
    /// The name of a contract is next.
    Contract,
    /// The patterns of the first bind of a receive are next.
    For,
    /// The target of a `match` is next.
    Match,
}

/// The form of this key, up to its first constituent.
pub fn begin_form(cursor: &mut Cursor<'_>, key: FormKey, free: u32) -> Result<FormStep, Fault>
    ensures reads { BeginsWithin free cursor.old (form_sort key) after_form_step result cursor.new }
    ensures room { IfOk result (λ _. 0 < free) }
    ensures shorter { Shortens cursor.old result cursor.new }
{
    begin_keyed(cursor, key, free)?;
    match key {
        FormKey::New => {
            let names = declared_names(cursor)?;
            Ok(FormStep::New(names))
        }
        FormKey::If => Ok(FormStep::If),
        FormKey::Contract => Ok(FormStep::Contract),
        FormKey::For => Ok(FormStep::For),
        FormKey::Match => Ok(FormStep::Match),
    }
}
