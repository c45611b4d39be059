// Other variables in place of the variables that are bound around a process.

ghost use Rattle.std.specs.Prelude.{◌≡◌, ℕ, ◌^◌, ◌<◌, ◌≤◌, length, slice_index, IfOk};
ghost use Rattle.calculus.specs.Substitution.{renumber};
ghost use Rattle.calculus.specs.Unfolding.{new_index};

use crate::substitution::replaced;
use crate::variable::Replacement;
use rho_term::Term;
use std::alloc::{AllocError, Global};

/// The body of a receive with its variables numbered anew, in normal order, where its binds now stand in
/// another order. The places are those of the variables among all that the binds bound before, in their new
/// order: a variable that is bound around the body is now the one whose new place has its old place. An
/// index is counted from the last place.
///
/// Want of memory is the one error. More than `u32::MAX` places and a new index that no `u32` holds, which
/// takes as many variables in scope, count as such.
pub fn renumber_body(alloc: Global, body: &Term, places: &[u32]) -> Result<Term, AllocError>
    ensures { IfOk result (λ t. t ≡ renumber (new_index places.now) body.now) }
{
    let indices = new_indices(alloc, places)?;
    let replacement = Replacement::Indices(indices.as_slice());
    replaced(alloc, body, &replacement)
}

// The new index of each variable by its index.
fn new_indices(alloc: Global, places: &[u32]) -> Result<Vec<u32>, AllocError>
    ensures length { IfOk result (λ v. length v.items ≡ length places.now) }
    ensures indices { IfOk result (λ v. (k : ℕ) → k < length places.now → slice_index v.items k ≡ new_index places.now k) }
{
    if places.len() > u32::MAX as usize {
        return Err(AllocError);
    }
    let mut indices = vec![in alloc; 0u32; places.len()]?;
    set_indices(indices.as_mut_slice(), places);
    Ok(indices)
}

// Writes the new index of each variable whose place is among these, the first of equal places last; that of
// any other is 0.
fn set_indices(indices: &mut [u32], places: &[u32])
    requires count { length indices.old ≡ length places.now }
    requires few { length places.now ≤ 2 ^ 32 }
    requires zeros { (k : ℕ) → slice_index indices.old k ≡ 0 }
    ensures { (k : ℕ) → k < length places.now → slice_index indices.new k ≡ new_index places.now k }
{
    let count = places.len();
    let mut place = count;
    while place > 0 {
        place -= 1;
        let old = places[place] as usize;
        if old < count {
            indices[count - 1 - old] = (count - 1 - place) as u32;
        }
    }
}
