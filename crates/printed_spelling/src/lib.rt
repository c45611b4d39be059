//! The printed text of a closed process spells it: its tokens spell, in the grammar, a written process
//! whose bare form is congruent to it.
//!
//! The definitions stand in `specs/` and in those of the crates below; the functions here do nothing and carry laws.
#![tactic(auto)]

pub mod term_examples;
pub mod term_laws;
pub mod text_examples;
pub mod text_laws;
