ghost use Rattle.std.specs.Prelude.{◌≡◌, map, IfOk};
ghost use Rattle.rho_term.specs.Parts.{part_tree};
ghost use Rattle.code_order.specs.Made.{reordered, made_process};

use crate::order::{sorted_pairs, sorted_parts, sorted_terms};
use rho_term::{Part, Term, with_room};
use std::alloc::{AllocError, Global};

/// The process of these parts, in normal order: they ascend in their codes, and so do the members of a
/// set or a map among them. Parts of equal codes keep their order.
///
/// Want of memory is the one error; the parts are gone then.
pub fn make_par(alloc: Global, parts: Vec<Part>) -> Result<Term, AllocError>
    ensures { IfOk result (λ t. t ≡ made_process (map part_tree parts.items)) }
{
    let parts = with_orders(alloc, parts)?;
    let parts = sorted_parts(alloc, parts)?;
    Ok(Term::from_sorted(parts))
}

// The parts, the members of each set and map among them in order.
fn with_orders(alloc: Global, parts: Vec<Part>) -> Result<Vec<Part>, AllocError>
    ensures { IfOk result (λ v. map part_tree v.items ≡ map (λ p. reordered (part_tree p)) parts.items) }
{
    let mut ordered = with_room(alloc, parts.len());
    for part in parts {
        ordered.push(with_order(alloc, part)?)?;
    }
    Ok(ordered)
}

/// The part, with the members of a set or a map that it is in order. Members of equal codes keep their
/// order.
///
/// Want of memory is the one error; the part is gone then.
pub fn with_order(alloc: Global, part: Part) -> Result<Part, AllocError>
    ensures { IfOk result (λ p. part_tree p ≡ reordered (part_tree part)) }
{
    let part = match part.into_members() {
        Ok(members) => return Ok(Part::Set(sorted_terms(alloc, members)?)),
        Err(part) => part,
    };
    match part.into_pairs() {
        Ok(pairs) => Ok(Part::Map(sorted_pairs(alloc, pairs)?)),
        Err(part) => Ok(part),
    }
}
