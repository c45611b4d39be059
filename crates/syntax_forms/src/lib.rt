//! The processes and patterns that the productions make of their constituents, with the heights of their texts.
#![tactic(auto)]

pub mod pattern_forms;
pub mod process_forms;
