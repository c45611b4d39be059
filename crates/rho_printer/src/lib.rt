//! The printed text of normal terms.
#![tactic(auto)]

mod binds;
mod parts;
mod pattern_parts;
mod patterns;
pub mod print;
mod terms;

pub use print::print_term;
