//! What a replay by many workers reads of a log, and which of its steps can be done, in any order of jobs. A line is a kind and its
//! fields.
#![tactic(auto)]

mod bodies;
mod plain;
mod racing;
mod reading;
mod tables;

use std::alloc::Global;
use table_lines::LineFault;

/// The answer to a line of this kind with these fields.
pub fn answer(alloc: Global, word: &str, fields: &str) -> Result<String, LineFault> {
    match word {
        "uses" => tables::uses(alloc, fields),
        "any-order" => tables::any_order(alloc, fields),
        "done" => tables::done(alloc, fields),
        _ => Err(LineFault::Kind),
    }
}
