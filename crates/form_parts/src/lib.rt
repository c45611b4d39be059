//! The parts of forms that were read, with the heights of their texts, and what is done with them whatever their type.
#![tactic(auto)]

pub mod part;
pub mod parts;
