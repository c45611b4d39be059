ghost use Rattle.std.specs.Prelude.{◌≡◌, IfOk};
ghost use Rattle.calculus.specs.Rows.{system_name};
ghost use Rattle.calculus.specs.Shape.{leaf, only};
ghost use Rattle.calculus.specs.Tree.{fresh};
ghost use Rattle.calculus.specs.Unfolding.{name_made};
ghost use Rattle.system_names.specs.Fixed.{fixed_value, uri_value};

use calculus::{Digest, Origin, Rights};
use name_seed::Seed;
use rho_term::{Part, Term};
use std::alloc::{AllocError, Global};

/// The fixed name behind this URI, in a bundle that lets write alone: number 0 for `rho:io:stdout` and
/// number 1 for `rho:io:stdoutAck`. No other URI has one. Want of memory is the one error.
pub fn uri_name(alloc: Global, uri: &str) -> Result<Option<Term>, AllocError>
    ensures { IfOk result (λ name. name ≡ uri_value uri.now) }
{
    if uri == "rho:io:stdout" {
        return Ok(Some(fixed_name(alloc, STDOUT)?));
    }
    if uri == "rho:io:stdoutAck" {
        return Ok(Some(fixed_name(alloc, STDOUT_ACK)?));
    }
    Ok(None)
}

/// The name that a `new` with this seed makes of its name of this number, counted from 0, and origin: a
/// fresh name, or the fixed name behind the origin's URI, in a bundle that lets write alone. Want of
/// memory is the one error.
pub fn made_name(
    alloc: Global,
    seed: &Seed,
    number: u32,
    origin: Origin,
) -> Result<Term, AllocError>
    ensures { IfOk result (λ name. name ≡ name_made seed.now number origin) }
{
    match origin {
        Origin::Plain => Ok(fresh_name(alloc, seed.fresh(number).digest())?),
        Origin::Stdout => Ok(fixed_name(alloc, STDOUT)?),
        Origin::StdoutAck => Ok(fixed_name(alloc, STDOUT_ACK)?),
    }
}

/// The fixed name of this number as a value, in a bundle that lets write alone. Want of memory is the one
/// error.
pub fn fixed_name(alloc: Global, number: u32) -> Result<Term, AllocError>
    ensures { IfOk result (λ name. name ≡ fixed_value number) }
{
    let body = bare_name(alloc, number)?;
    let rights = Rights::Write;
    Term::from_part(alloc, Part::Bundle { rights, body })
}

// The numbers of the fixed names.
pub(crate) const STDOUT: u32 = 0;

pub(crate) const STDOUT_ACK: u32 = 1;

// The fixed name of this number, without a bundle.
pub(crate) fn bare_name(alloc: Global, number: u32) -> Result<Term, AllocError>
    ensures { IfOk result (λ name. name ≡ system_name number) }
{
    fresh_name(alloc, Seed::system(number).digest())
}

// The name of this digest.
fn fresh_name(alloc: Global, digest: Digest) -> Result<Term, AllocError>
    ensures { IfOk result (λ name. name ≡ only (leaf (fresh digest.0))) }
{
    Term::from_part(alloc, Part::Fresh(digest))
}
