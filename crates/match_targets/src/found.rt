// Matches that are found, and their bindings.
ghost use Rattle.std.specs.Prelude.{◌≡◌, [], ◌∷◌, ◌++◌, IfOk};
ghost use Rattle.calculus.specs.Matching.{one_if};
ghost use Rattle.match_targets.specs.Found.{IsFirst};

use rho_term::Term;
use std::alloc::{AllocError, Global};

/// One match that binds nothing, or none.
pub fn found_if(alloc: Global, holds: bool) -> Option<Vec<Term>>
    ensures { IsFirst (one_if holds) result }
{
    if holds {
        return Some(Vec::new(alloc));
    }
    None
}

/// One match that binds this. Want of memory is the one error.
pub fn found_one(alloc: Global, value: Term) -> Result<Option<Vec<Term>>, AllocError>
    ensures { IfOk result (λ o. IsFirst ((value ∷ []) ∷ []) o) }
{
    let mut values = Vec::new(alloc);
    values.push(value)?;
    Ok(Some(values))
}

/// The one list and then the other. Want of memory is the one error.
pub fn joined(first: Vec<Term>, second: Vec<Term>) -> Result<Vec<Term>, AllocError>
    ensures { IfOk result (λ v. v.items ≡ first.items ++ second.items) }
{
    let mut all = first;
    let mut more = second;
    all.append(&mut more)?;
    Ok(all)
}
