//! Things in the order of the bytes beside them.

ghost use Rattle.std.specs.Prelude.{◌≡◌, map, IfOk};
ghost use Rattle.calculus.specs.Normal.{arranged_by};
ghost use Rattle.code_order.specs.Keyed.{beside};

use rho_term::with_room;
use std::alloc::{AllocError, Global};

/// Things in the order of the bytes beside them. Those beside equal bytes keep their order. Want of memory is the
/// one error.
pub fn in_order<T: Drop>(alloc: Global, keyed: Vec<(Vec<u8>, T)>) -> Result<Vec<T>, AllocError>
    ensures { IfOk result (λ v. v.items ≡ arranged_by (map beside keyed.items)) }
{
    let mut keyed = keyed;
    keyed.sort_by(|a, b| a.0.cmp(&b.0))?;
    without_keys(alloc, keyed)
}

// Things without the bytes beside them.
fn without_keys<T: Drop>(alloc: Global, keyed: Vec<(Vec<u8>, T)>) -> Result<Vec<T>, AllocError>
    ensures { IfOk result (λ v. v.items ≡ map (λ p. p.1) keyed.items) }
{
    let mut items = with_room(alloc, keyed.len());
    for (_code, item) in keyed {
        items.push(item)?;
    }
    Ok(items)
}
