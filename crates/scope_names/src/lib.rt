//! The names in scope with their indices, and the variables in scope with what each stands for.
#![tactic(auto)]

mod names;
pub mod variables;

pub use names::Names;
pub use variables::{Found, Role, Variables};
