// Which parts need no braces.
ghost use Rattle.std.specs.Prelude.{◌≡◌};
ghost use Rattle.calculus.specs.Printed.{is_atom, is_bare_name};
ghost use Rattle.calculus.specs.Shape.{label_of};
ghost use Rattle.rho_term.specs.Parts.{part_tree, pat_part_tree};

use rho_term::{Part, PatPart};

// Whether a part needs no braces.
pub(crate) fn is_atom_part(p: &Part) -> bool
    ensures { result ≡ is_atom (label_of (part_tree p.now)) }
{
    match p {
        Part::Ground(_) => true,
        Part::Var(_) => true,
        Part::List(_) => true,
        Part::Tuple(_) => true,
        Part::Set(_) => true,
        Part::Map(_) => true,
        _ => false,
    }
}

// Whether a part of a pattern needs no braces.
pub(crate) fn is_pattern_atom_part(p: &PatPart) -> bool
    ensures { result ≡ is_atom (label_of (pat_part_tree p.now)) }
{
    match p {
        PatPart::Wild => true,
        PatPart::Var => true,
        PatPart::Simple(_) => true,
        PatPart::Same(_) => true,
        PatPart::Ground(_) => true,
        PatPart::List(_, _) => true,
        PatPart::Tuple(_) => true,
        PatPart::Set(_, _) => true,
        PatPart::Map(_, _) => true,
        PatPart::Closed(part) => is_atom_part(part),
        _ => false,
    }
}

// Whether a part of a pattern is a name pattern by itself.
pub(crate) fn is_bare_part(p: &PatPart) -> bool
    ensures { result ≡ is_bare_name (label_of (pat_part_tree p.now)) }
{
    match p {
        PatPart::Wild => true,
        PatPart::NameVar => true,
        _ => false,
    }
}
