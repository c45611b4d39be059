//! Processes and patterns that hold no further ones.
ghost use Rattle.form_steps.specs.Steps.{plain_height, plain_pattern_height, plain_pattern_rule, plain_rule};
ghost use Rattle.token_cursor.specs.Meaning.{view};
ghost use Rattle.token_cursor.specs.Reading.{Makes, of_pat, of_proc};
ghost use Rattle.std.specs.Prelude.{◌≡◌, ◌≤◌, ℕ, IfOk, length};

use calculus::{Pat, Proc};
use form_parts::part::Part;
use form_steps::step::{PlainPattern, PlainProcess};
use grammar::Fault;
use leaf_forms::{
    atom_ground, atom_nil, atom_word, dropped_word, empty_map, empty_map_pat, pat_any, pat_ground,
    pat_nil, pat_type, pat_word, rest_map_pat, same_drop, same_word,
};
use token_cursor::Cursor;

/// A process that holds no further one.
pub fn plain_process(cursor: &mut Cursor<'_>, plain: PlainProcess) -> Result<Part<Proc>, Fault>
    ensures reads { (free : ℕ) → Makes free (plain_rule plain) of_proc (view cursor.old.rest.now) result (view cursor.new.rest.now) }
    ensures height { IfOk result (λ p. p.height ≡ plain_height plain) }
    ensures shorter { length cursor.new.rest.now ≤ length cursor.old.rest.now }
{
    match plain {
        PlainProcess::Word => atom_word(cursor),
        PlainProcess::Nil => atom_nil(cursor),
        PlainProcess::Ground => atom_ground(cursor),
        PlainProcess::Dropped => dropped_word(cursor),
        PlainProcess::EmptyMap => empty_map(cursor),
    }
}

/// A pattern that holds no further one.
pub fn plain_pattern(cursor: &mut Cursor<'_>, plain: PlainPattern) -> Result<Part<Pat>, Fault>
    ensures reads { (free : ℕ) → Makes free (plain_pattern_rule plain) of_pat (view cursor.old.rest.now) result (view cursor.new.rest.now) }
    ensures height { IfOk result (λ p. p.height ≡ plain_pattern_height plain) }
    ensures shorter { length cursor.new.rest.now ≤ length cursor.old.rest.now }
{
    match plain {
        PlainPattern::Word => pat_word(cursor),
        PlainPattern::Any => pat_any(cursor),
        PlainPattern::Type(simple) => pat_type(cursor, simple),
        PlainPattern::Nil => pat_nil(cursor),
        PlainPattern::Ground => pat_ground(cursor),
        PlainPattern::SameWord => same_word(cursor),
        PlainPattern::SameDropped => same_drop(cursor),
        PlainPattern::EmptyMap => empty_map_pat(cursor),
        PlainPattern::RestMap => rest_map_pat(cursor),
    }
}
