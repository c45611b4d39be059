// What of a process has the same form in its term.

ghost use Rattle.std.specs.Prelude.{◌≡◌, map, IfOk, Some};
ghost use Rattle.calculus.specs.Bare.{Names, declared_origin};
ghost use Rattle.calculus.specs.Meaning.{ground_label, declared, rest_written};
ghost use Rattle.calculus.specs.Shape.{leaf};
ghost use Rattle.calculus.specs.Tree.{rest as rest_form};
ghost use Rattle.normal_parts.specs.Made.{normal_in};

use calculus::{Decl, Ground, Origin, Rest, TermRest};
use std::alloc::{AllocError, Global};

/// An equal value.
pub fn copy_ground(value: &Ground) -> Result<Ground, AllocError>
    ensures { IfOk result (λ g. ground_label g ≡ ground_label value.now) }
{
    match value {
        Ground::Bool(b) => Ok(Ground::Bool(*b)),
        Ground::Int(n) => Ok(Ground::Int(*n)),
        Ground::Str(s) => Ok(Ground::Str(s.clone()?)),
        Ground::Uri(s) => Ok(Ground::Uri(s.clone()?)),
        Ground::Bytes(bytes) => Ok(Ground::Bytes(bytes.clone()?)),
    }
}

/// A remainder without its name.
#[tactic(auto, unfolding(crate::specs::Made::normal_in))]
pub fn rest_of(rest: &Rest) -> TermRest
    ensures { (v : Names) → normal_in (rest_written rest.now) v ≡ leaf (rest_form result) }
{
    match rest {
        Rest::No => TermRest::No,
        Rest::Wild => TermRest::Wild,
        Rest::Var(_) => TermRest::Var,
    }
}

/// What a `new` makes of each declared name.
pub fn origins(alloc: Global, names: &Vec<Decl>) -> Result<Vec<Origin>, AllocError>
    ensures { IfOk result (λ v. v.items ≡ map (λ d. declared_origin d.1) (map declared names.now.items)) }
{
    let mut origins = Vec::new(alloc);
    for decl in names {
        origins.push(origin(decl))?;
    }
    Ok(origins)
}

// What a `new` makes of one name.
fn origin(decl: &Decl) -> Origin
    ensures { result ≡ declared_origin (declared decl.now).1 }
{
    match &decl.uri {
        None => Origin::Plain,
        Some(uri) => fixed_name(uri.as_str()),
    }
}

// The fixed name of a URI; any other URI makes a plain name.
fn fixed_name(uri: &str) -> Origin
    ensures { result ≡ declared_origin (Some uri.now) }
{
    if uri == "rho:io:stdout" {
        return Origin::Stdout;
    }
    if uri == "rho:io:stdoutAck" {
        return Origin::StdoutAck;
    }
    Origin::Plain
}
