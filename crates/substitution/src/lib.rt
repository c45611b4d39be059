//! Normal terms of processes with values put in, or with their variables renumbered.
#![tactic(auto)]

mod maker;
pub mod renumbering;
pub mod substitution;
mod variable;

pub use renumbering::renumber_body;
pub use substitution::substitute;
