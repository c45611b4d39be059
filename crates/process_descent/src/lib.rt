//! The descent over the productions of the grammar: the process that tokens begin with.
#![tactic(auto)]

mod atom;
mod form;
mod left;
mod operation;
mod parser;
mod pattern;
mod pattern_atom;
mod process;

pub use parser::Parser;
