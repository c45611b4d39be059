//! Rules of scope: which of them a written process breaks, in reading order.
//!
//! The definitions stand in `specs/`; the functions here do nothing and carry examples and laws.
#![tactic(auto)]

pub mod examples;
pub mod laws;
