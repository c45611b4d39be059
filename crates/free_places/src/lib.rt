//! Numbers of targets: which are used, which is the next that is free, and what is left where some are used.
#![tactic(auto)]

ghost use Rattle.std.specs.Prelude.{◌≡◌, ◌∷◌, ◌++◌, [], List, not, length, IfOk};
ghost use Rattle.calculus.specs.Matching.{is_empty};
ghost use Rattle.calculus.specs.Tree.{Tree};
ghost use Rattle.free_places.specs.Places.{IsNextFree, has, left_from};

use std::alloc::{AllocError, Global};

/// Whether number j is not used.
pub fn is_free(used: &[usize], j: usize) -> bool
    ensures { result ≡ not (has used.now j) }
{
    for place in used {
        if *place == j {
            return false;
        }
    }
    true
}

/// The first number below n, from this one on, that is not used, and None where all of them are.
pub fn next_free(used: &[usize], from: usize, n: usize) -> Option<usize>
    ensures { IsNextFree used.now from n result }
{
    for j in from..n {
        if is_free(used, j) {
            return Some(j);
        }
    }
    None
}

/// One number more. Want of memory is the one error.
pub fn with_place(alloc: Global, used: &[usize], j: usize) -> Result<Vec<usize>, AllocError>
    ensures { IfOk result (λ v. v.items ≡ used.now ++ j ∷ []) }
{
    let mut places = Vec::new(alloc);
    places.extend_from_slice(used)?;
    places.push(j)?;
    Ok(places)
}

/// Whether all numbers below n are used.
pub fn is_spent(n: usize, used: &[usize]) -> bool
    ensures { (ts : List Tree) → length ts ≡ n → result ≡ is_empty (left_from 0 used.now ts) }
{
    for j in 0..n {
        if is_free(used, j) {
            return false;
        }
    }
    true
}
