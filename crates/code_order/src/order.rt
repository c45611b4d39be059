// Parts, processes and pairs in the order of their codes. Nothing is encoded where all of them suit, nor
// where there is no second thing.

ghost use Rattle.std.specs.Prelude.{◌≡◌, map, IfOk, All};
ghost use Rattle.calculus.specs.Normal.{ascending};
ghost use Rattle.rho_term.specs.Normal.{IsOrdered};
ghost use Rattle.rho_term.specs.Parts.{part_tree, pair_tree};
ghost use Rattle.code_order.specs.Made.{beside, keyed_by, ascending_by};

use crate::coded::HasCode;
use crate::compared::{all_suit, compared};
use crate::in_order;
use rho_term::{Part, Term, with_room};
use std::alloc::{AllocError, Global};

/// The parts, ascending in their codes.
pub fn sorted_parts(alloc: Global, parts: Vec<Part>) -> Result<Vec<Part>, AllocError>
    requires { All (λ p. IsOrdered (part_tree p)) parts.items }
    ensures ascend { IfOk result (λ v. map part_tree v.items ≡ ascending (map part_tree parts.items)) }
    ensures members { IfOk result (λ v. All (λ p. IsOrdered (part_tree p)) v.items) }
{
    sorted(alloc, parts)
}

/// The processes, ascending in their codes.
pub fn sorted_terms(alloc: Global, terms: Vec<Term>) -> Result<Vec<Term>, AllocError>
    ensures { IfOk result (λ v. v.items ≡ ascending terms.items) }
{
    sorted(alloc, terms)
}

/// The pairs, ascending in their codes, each of which is the key's code and then the value's.
pub fn sorted_pairs(
    alloc: Global,
    pairs: Vec<(Term, Term)>,
) -> Result<Vec<(Term, Term)>, AllocError>
    ensures { IfOk result (λ v. map pair_tree v.items ≡ ascending (map pair_tree pairs.items)) }
{
    sorted(alloc, pairs)
}

// These, ascending in their codes.
fn sorted<T: HasCode>(alloc: Global, items: Vec<T>) -> Result<Vec<T>, AllocError>
    requires { All T.is_ready items.items }
    ensures { IfOk result (λ v. v.items ≡ ascending_by T.bytes items.items) }
{
    if items.len() < 2 {
        return Ok(items);
    }
    if all_suit(&items) {
        return compared(alloc, items);
    }
    let keyed = with_codes(alloc, items)?;
    in_order(alloc, keyed)
}

// These beside their codes.
fn with_codes<T: HasCode>(alloc: Global, items: Vec<T>) -> Result<Vec<(Vec<u8>, T)>, AllocError>
    requires { All T.is_ready items.items }
    ensures { IfOk result (λ v. map beside v.items ≡ keyed_by T.bytes items.items) }
{
    let mut keyed = with_room(alloc, items.len());
    for item in items {
        let code = item.encoded(alloc)?;
        keyed.push((code, item))?;
    }
    Ok(keyed)
}
