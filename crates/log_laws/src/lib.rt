//! Laws of the refusals of a log's bytes. Each stands in the contract of a function that does nothing.
#![tactic(auto)]

pub mod laws;
