ghost use Rattle.std.specs.Prelude.{◌≡◌, false, None, IsSome, OnOk};

use crate::fault::LineFault;
use std::alloc::{AllocError, Global};

/// What a case of a test comes to: things are compared with what they must be.
#[derive(Clone, Copy)]
pub struct Case {
    /// How many things were compared.
    pub compared: u32,
    /// The number of the first that was otherwise, counted from 1.
    pub wrong: Option<u32>,
}

impl Case {
    /// A case in which nothing was compared.
    pub fn new() -> Case {
        Case {
            compared: 0,
            wrong: None,
        }
    }

    /// Takes up one comparison: whether what must hold does.
    pub fn must(&mut self, holds: bool)
        ensures wrong { holds ≡ false → IsSome self.new.wrong }
        ensures stays { IsSome self.old.wrong → IsSome self.new.wrong }
    {
        self.compared = self.compared.saturating_add(1);
        if holds {
            return;
        }
        self.wrong = Some(self.wrong.unwrap_or(self.compared));
    }
}

/// Puts the line of a case in which all was as it must be. Of any other the error names the case.
pub fn put_case(alloc: Global, told: &mut String, name: &str, case: Case) -> Result<(), LineFault>
    ensures { OnOk result (case.wrong ≡ None) }
{
    match case.wrong {
        Some(wrong) => Err(otherwise(alloc, name, wrong)),
        None => {
            put_line(alloc, told, name, case.compared)?;
            Ok(())
        }
    }
}

/// Puts the lines of cases with their names, up to the first in which a comparison was otherwise.
pub fn put_cases(
    alloc: Global,
    told: &mut String,
    cases: &[(&str, Case)],
) -> Result<(), LineFault> {
    for (name, case) in cases {
        put_case(alloc, told, *name, *case)?;
    }
    Ok(())
}

// That the comparison of this number was otherwise.
fn otherwise(alloc: Global, name: &str, wrong: u32) -> LineFault {
    let told = format!(in alloc; "{name}: comparison {wrong} is otherwise");
    match told {
        Ok(told) => LineFault::Refused(told),
        Err(_) => LineFault::NoMemory,
    }
}

fn put_line(alloc: Global, told: &mut String, name: &str, compared: u32) -> Result<(), AllocError> {
    told.push_str(format!(in alloc; "{name}: as it must be, {compared} compared\n")?.as_str())
}
