// What a step prints.
ghost use Rattle.std.specs.Prelude.{◌≡◌, [], ◌∷◌, ◌++◌, ◌||◌, All, IfOk, OnOk};
ghost use Rattle.std.specs.Str.{bytes_eq};
ghost use Rattle.calculus.specs.Form.{IsClosed};
ghost use Rattle.calculus.specs.Rows.{stdout, stdout_ack};
ghost use Rattle.calculus.specs.Shape.{at};
ghost use Rattle.calculus.specs.Steps.{line};
ghost use Rattle.found_rows.specs.Making.{printed_line};

use calculus::Digest;
use found_rows::Found;
use name_seed::Seed;
use rho_printer::print_term;
use rho_term::Term;
use std::alloc::{AllocError, Global};

// Whether this is the id of a built-in receiver.
fn is_built_in(id: &Digest) -> bool
    ensures { result ≡ (bytes_eq id.now.0 stdout.id || bytes_eq id.now.0 stdout_ack.id) }
{
    *id == Seed::system(2).digest() || *id == Seed::system(3).digest()
}

// The text of the first of these values, and of the empty process where there is none.
fn first_text(alloc: Global, values: &[Term]) -> Result<Vec<u8>, AllocError>
    requires { All IsClosed values.now }
    ensures { IfOk result (λ v. line (at 0 values.now) ≡ v.items ++ (10 ∷ [])) }
{
    match values.first() {
        Some(value) => print_term(alloc, value),
        None => print_term(alloc, &Term::nil(alloc)),
    }
}

/// The line that a step prints with what was found, with its line feed; empty unless the receiver is a built-in one. Want of memory is
/// the one error.
pub fn line_of(alloc: Global, found: &Found) -> Result<Vec<u8>, AllocError>
    requires { All IsClosed found.now.bound.items }
    ensures { IfOk result (λ v. v.items ≡ printed_line found.now) }
{
    if !is_built_in(&found.cont) {
        return Ok(Vec::new(alloc));
    }
    let mut text = first_text(alloc, found.bound.as_slice())?;
    text.push(b'\n')?;
    Ok(text)
}
