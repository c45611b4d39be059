// The declarations of a `new`.

ghost use Rattle.std.specs.Prelude.{◌≡◌, [], map, string_bytes, option_map, Some, IfOk};
ghost use Rattle.calculus.specs.Meaning.{declared};
ghost use Rattle.calculus.specs.Bare.{uri_origin, declared_origin};
ghost use Rattle.scope.specs.Binding.{inside, declared_variables};
ghost use Rattle.scope.specs.Rules.{declaration as declaration_breaks, declarations as declarations_break, uri_use};
ghost use Rattle.input_faults.specs.Walks.{Judges};

use crate::fault::ScopeFault;
use calculus::{Decl, Origin};
use scope_names::{Role, Variables};
use std::alloc::Global;

/// The declared names as variables, and what the `new` makes of each.
pub fn declarations(
    alloc: Global,
    names: &Vec<Decl>,
) -> Result<(Variables, Vec<Origin>), ScopeFault>
    ensures rules { Judges result (declarations_break (map declared names.now.items) []) }
    ensures bound { IfOk result (λ p. p.0 ≡ inside (declared_variables (map declared names.now.items)) []) }
    ensures origins { IfOk result (λ p. p.1.items ≡ map (λ d. declared_origin d.1) (map declared names.now.items)) }
{
    let mut bound = Variables::new(alloc);
    let mut origins = Vec::new(alloc);
    for decl in names {
        origins.push(declaration(&bound, decl)?)?;
        bound.bind(&decl.name, Role::Name)?;
    }
    Ok((bound, origins))
}

// What the `new` makes of a name that is declared after these.
fn declaration(seen: &Variables, decl: &Decl) -> Result<Origin, ScopeFault>
    ensures rules { Judges result (declaration_breaks (declared decl.now) seen.now) }
    ensures origin { IfOk result (λ o. o ≡ declared_origin (declared decl.now).1) }
{
    if seen.find(decl.name.as_str()).is_some() {
        let name = decl.name.clone()?;
        return Err(ScopeFault::Repeated { name });
    }
    match &decl.uri {
        None => Ok(Origin::Plain),
        Some(uri) => fixed_name(uri),
    }
}

// The fixed name of a URI.
fn fixed_name(uri: &String) -> Result<Origin, ScopeFault>
    ensures rules { Judges result (uri_use (Some (string_bytes uri.now))) }
    ensures origin { IfOk result (λ o. o ≡ uri_origin (string_bytes uri.now)) }
{
    let text = uri.as_str();
    if text == "rho:io:stdout" {
        return Ok(Origin::Stdout);
    }
    if text == "rho:io:stdoutAck" {
        return Ok(Origin::StdoutAck);
    }
    let uri = uri.clone()?;
    Err(ScopeFault::UnknownUri { uri })
}
