//! Terms, names in scope, bytes that differ and names of URIs, files, the output and a gate, by calls that no text spells.
#![tactic(auto)]

mod calls;
mod made_terms;
mod maker;
mod names;
mod outside;
mod slow;

use std::alloc::Global;
use std::rt::Files;
use std::sync::Wait;
use table_lines::{LineFault, put_case};

/// A line of each case about terms, names and bytes.
pub fn told_terms(alloc: Global) -> Result<String, LineFault> {
    let mut text = String::new(alloc);
    match put_all(alloc, &mut text) {
        Ok(()) => Ok(text),
        Err(fault) => Err(fault),
    }
}

fn put_all(alloc: Global, told: &mut String) -> Result<(), LineFault> {
    made_terms::put_all(alloc, told)?;
    put_case(
        alloc,
        told,
        "last_of_equal_names_is_found",
        names::last_of_equal_names_is_found(alloc)?,
    )?;
    put_case(
        alloc,
        told,
        "the_first_difference_is_found",
        calls::the_first_difference_is_found(alloc)?,
    )?;
    put_case(
        alloc,
        told,
        "two_uris_have_names",
        calls::two_uris_have_names(alloc)?,
    )
}

/// A line of each case about what is outside. The files of the system are those where the program runs.
pub fn told_outside<R: Files + Print + Wait>(rt: &R, alloc: Global) -> Result<String, LineFault> {
    let mut text = String::new(alloc);
    match outside::put_all(rt, alloc, &mut text) {
        Ok(()) => Ok(text),
        Err(fault) => Err(fault),
    }
}
