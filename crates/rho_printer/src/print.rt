// Terms as their printed texts.
ghost use Rattle.std.specs.Prelude.{◌≡◌, IfOk};
ghost use Rattle.calculus.specs.Form.{IsClosed};
ghost use Rattle.calculus.specs.Printed.{printed_text};

use crate::terms::put_term;
use printed_leaves::Page;
use rho_term::Term;
use std::alloc::{AllocError, Global};

/// The printed text of a closed process, in ASCII but for what stands in its strings and URIs.
///
/// It spells the process in the grammar of sources, without the bound on height and with two further
/// tokens: `$` and 64 hexadecimal digits for a fresh name, and `#` and an even number of digits for a
/// ByteArray. Parts, and the members of sets and maps, stand in the order of their codes; the variable
/// that has n variables in scope before it is `vN`. Want of memory is the one error.
pub fn print_term(alloc: Global, t: &Term) -> Result<Vec<u8>, AllocError>
    ensures { IfOk result (λ v. IsClosed t.now → v.items ≡ printed_text t.now) }
{
    let mut page = Page::new(alloc);
    put_term(&mut page, t, 0);
    page.text()
}
