// Which processes and patterns need no braces.
ghost use Rattle.std.specs.Prelude.{◌≡◌, ◌++◌, ℕ, List, cond, codes};
ghost use Rattle.calculus.specs.Printed.{operand_text, name_pattern_text};
ghost use Rattle.calculus.specs.Shape.{held};

use crate::parts::{is_atom_part, is_bare_part, is_pattern_atom_part};
use rho_term::{Term, TermPat};

/// Whether a process is one part that needs no braces.
pub fn is_atom(t: &Term) -> bool
    ensures { (x : List ℕ) → operand_text (held t.now) x ≡ cond result x (codes "{" ++ (x ++ codes "}")) }
{
    match t.parts() {
        [single] => is_atom_part(single),
        _ => false,
    }
}

/// Whether a pattern is one part that needs no braces.
pub fn is_pattern_atom(t: &TermPat) -> bool
    ensures { (x : List ℕ) → operand_text (held t.now) x ≡ cond result x (codes "{" ++ (x ++ codes "}")) }
{
    match t.parts() {
        [single] => is_pattern_atom_part(single),
        _ => false,
    }
}

/// Whether a pattern of names is a variable or the wildcard.
pub fn is_bare(t: &TermPat) -> bool
    ensures { (x : List ℕ) → name_pattern_text (held t.now) x ≡ cond result x (codes "@" ++ operand_text (held t.now) x) }
{
    match t.parts() {
        [single] => is_bare_part(single),
        _ => false,
    }
}
