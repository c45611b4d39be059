//! Parts of terms and patterns in codes, but for their constituents, and lists of what is read.
#![tactic(auto)]

pub mod heads;
pub mod leaves;
pub mod lists;
pub mod scopes;
pub mod tags;
