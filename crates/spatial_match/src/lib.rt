//! The first match of a pattern against a process, and of a bind against the arguments of a datum.
//!
//! The search borrows the target: what it has taken is a list of numbers of parts or members.
#![tactic(auto)]

mod forms;
pub mod matches;
mod members;
mod pairs;
mod parts;
mod split;

pub use matches::{first_match, match_bind};
