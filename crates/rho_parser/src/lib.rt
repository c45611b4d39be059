//! The parser: tokens to the process that they spell, by recursive descent over the productions of
//! the grammar.
#![tactic(auto)]

pub mod whole;

pub use grammar::Dialect;
pub use input_faults::ParseFault;
pub use whole::parse;
