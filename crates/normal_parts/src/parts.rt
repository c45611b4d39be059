// Parts of closed forms.

ghost use Rattle.std.specs.Prelude.{◌≡◌, map, IfOk};
ghost use Rattle.rho_term.specs.Parts.{part_tree, pat_part_tree};
ghost use Rattle.code_order.specs.Made.{reordered};

use code_order::with_order;
use rho_term::{Part, PatPart};
use std::alloc::{AllocError, Global};

/// The parts of a closed form, each in order, as parts of a pattern.
pub fn closed_parts(alloc: Global, parts: Vec<Part>) -> Result<Vec<PatPart>, AllocError>
    ensures { IfOk result (λ v. map pat_part_tree v.items ≡ map (λ p. reordered (part_tree p)) parts.items) }
{
    let mut closed = Vec::new(alloc);
    for part in parts {
        closed.push(PatPart::Closed(with_order(alloc, part)?))?;
    }
    Ok(closed)
}
