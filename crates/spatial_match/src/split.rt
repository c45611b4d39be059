// What a search has found so far, and small steps over it.
ghost use Rattle.std.specs.Prelude.{◌≡◌, [], ◌++◌, IfOk};

use match_targets::joined;
use rho_term::Term;
use std::alloc::AllocError;

// What the wide part binds, until it stands in its place, and what the parts from some place on bind.
#[derive(Drop)]
pub(crate) struct Split {
    pub(crate) wide: Vec<Term>,
    pub(crate) rest: Vec<Term>,
}

// What is bound from a wide part on: its own bindings, and then those of the parts after it.
pub(crate) fn with_wide(split: Split) -> Result<Split, AllocError>
    ensures wide { IfOk result (λ s. s.wide.items ≡ []) }
    ensures rest { IfOk result (λ s. s.rest.items ≡ split.wide.items ++ split.rest.items) }
{
    let Split { wide, rest } = split;
    let mut all = wide;
    let mut more = rest;
    all.append(&mut more)?;
    Ok(Split {
        wide: more,
        rest: all,
    })
}

// What is bound from a thin part on.
pub(crate) fn with_thin(found: Vec<Term>, split: Split) -> Result<Split, AllocError>
    ensures wide { IfOk result (λ s. s.wide.items ≡ split.wide.items) }
    ensures rest { IfOk result (λ s. s.rest.items ≡ found.items ++ split.rest.items) }
{
    let Split { wide, rest } = split;
    let all = joined(found, rest)?;
    Ok(Split { wide, rest: all })
}
