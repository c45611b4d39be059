//! What stores of rows in shards answer, beside a plain walk through all rows that could meet. A line is a kind and its fields.
#![tactic(auto)]

mod meets;
mod steps;
mod store;

use std::alloc::Global;
use table_lines::LineFault;

/// The answer to a line of this kind with these fields.
pub fn answer(alloc: Global, word: &str, fields: &str) -> Result<String, LineFault> {
    match word {
        "store" => steps::store_steps(alloc, fields),
        "least" => steps::least_step(alloc, fields),
        "meet" => meets::meet(alloc, fields),
        "groups" => source_rows::groups_with(alloc, fields),
        _ => Err(LineFault::Kind),
    }
}
