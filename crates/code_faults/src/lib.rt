//! What bytes that are no codes of normal terms are refused for, and at which place.
//!
//! The functions here do nothing and carry laws; `proofs` has the lemmas that the readers of codes call.
#![tactic(auto)]

pub mod examples;
pub mod fault;
pub mod laws;
pub mod sort;

pub use fault::{CodeFault, ReadFault};
pub use sort::{Sense, TextKind};
