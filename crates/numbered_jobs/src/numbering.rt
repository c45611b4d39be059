//! Numbers from 0 on.
ghost use Rattle.std.specs.Prelude.{◌≡◌, ◌≤◌, length, map, IfOk};

use std::alloc::{AllocError, Global};

/// These things with their numbers, from 0 on. Want of memory is the one error.
pub(crate) fn numbered<A: Drop>(alloc: Global, things: Vec<A>) -> Result<Vec<(u32, A)>, AllocError>
    requires few { length things.items ≤ 32 }
    ensures { IfOk result (λ v. map (λ p. p.1) v.items ≡ things.items) }
{
    let mut pairs = Vec::new(alloc);
    let mut number = 0u32;
    for thing in things {
        pairs.push((number, thing))?;
        number += 1;
    }
    Ok(pairs)
}
