//! Which process tokens spell, and where a fault of depth, and one of syntax, shows. Each law is the contract of a function
//! that does nothing.
#![tactic(auto)]

pub mod dialect;
pub mod fault;
pub mod grammar_examples;
pub mod grammar_laws;
pub mod mark;
pub mod place_examples;
pub mod place_laws;

pub use dialect::Dialect;
pub use fault::Fault;
pub use mark::Mark;
