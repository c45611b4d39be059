// Uses of names, and new variables of patterns.
#![tactic(auto, using(crate::proofs::Judging::judging))]

ghost use Rattle.std.specs.Prelude.{◌≡◌, ◌∷◌, [], string_bytes, OnOk, Some};
ghost use Rattle.calculus.specs.Meaning.{rest_written};
ghost use Rattle.scope.specs.Binding.{variables, inside, sense_of};
ghost use Rattle.scope.specs.Rules.{after, breaks, process_use, name_use, new_variable as variable_breaks};
ghost use Rattle.scope_names.specs.Senses.{sense};
ghost use Rattle.input_faults.specs.Walks.{Judges};

use crate::fault::ScopeFault;
use calculus::Rest;
use scope_names::{Role, Variables};

/// A name must stand for a process.
pub fn process_variable(scope: &Variables, name: &String) -> Result<(), ScopeFault>
    ensures { Judges result (process_use (string_bytes name.now) (sense_of (string_bytes name.now) scope.now)) }
{
    match scope.find(name.as_str()) {
        Some(found) => process_role(found.role, name),
        None => {
            let name = name.clone()?;
            Err(ScopeFault::Unbound { name })
        }
    }
}

// The role of a name must be that of a process.
fn process_role(role: Role, name: &String) -> Result<(), ScopeFault>
    ensures { Judges result (process_use (string_bytes name.now) (Some (sense role))) }
{
    match role {
        Role::Process => Ok(()),
        Role::Name => {
            let name = name.clone()?;
            Err(ScopeFault::WantsProcess { name })
        }
    }
}

/// A name must stand for a name.
pub fn name_variable(scope: &Variables, name: &String) -> Result<(), ScopeFault>
    ensures { Judges result (name_use (string_bytes name.now) (sense_of (string_bytes name.now) scope.now)) }
{
    match scope.find(name.as_str()) {
        Some(found) => name_role(found.role, name),
        None => {
            let name = name.clone()?;
            Err(ScopeFault::Unbound { name })
        }
    }
}

// The role of a name must be that of a name.
fn name_role(role: Role, name: &String) -> Result<(), ScopeFault>
    ensures { Judges result (name_use (string_bytes name.now) (Some (sense role))) }
{
    match role {
        Role::Name => Ok(()),
        Role::Process => {
            let name = name.clone()?;
            Err(ScopeFault::WantsName { name })
        }
    }
}

/// A remainder, whose variable joins these.
pub fn check_rest(bound: &mut Variables, negated: bool, rest: &Rest) -> Result<(), ScopeFault>
    ensures rules { Judges result (breaks (rest_written rest.now) [] (after bound.old negated)) }
    ensures bound { OnOk result (bound.new ≡ inside (variables (rest_written rest.now)) bound.old) }
{
    match rest {
        Rest::No => Ok(()),
        Rest::Wild => Ok(()),
        Rest::Var(name) => new_variable(bound, negated, name, Role::Process),
    }
}

/// One more variable of a receive or a case, which stands under no negation and has a new name.
pub fn new_variable(
    bound: &mut Variables,
    negated: bool,
    name: &String,
    role: Role,
) -> Result<(), ScopeFault>
    ensures rules { Judges result (variable_breaks (string_bytes name.now) (after bound.old negated)) }
    ensures bound { OnOk result (bound.new ≡ (string_bytes name.now, sense role) ∷ bound.old) }
{
    if negated {
        let name = name.clone()?;
        return Err(ScopeFault::UnderNegation { name });
    }
    if bound.find(name.as_str()).is_some() {
        let name = name.clone()?;
        return Err(ScopeFault::Repeated { name });
    }
    bound.bind(name, role)?;
    Ok(())
}
