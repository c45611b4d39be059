//! Laws of processes: congruent ones match, have values and unfold alike; what is closed has closed values and closed rows, and unfolds
//! to exactly one thing; and rows that may be stored stay so.
//!
//! The definitions stand in `specs/` and in those of `calculus`; the functions here do nothing and carry laws and examples.
#![tactic(auto)]

pub mod closed_row_examples;
pub mod closed_row_laws;
pub mod closed_value_laws;
pub mod congruent_examples;
pub mod congruent_laws;
pub mod matching_examples;
pub mod matching_laws;
pub mod storable_examples;
pub mod storable_laws;
pub mod unfolding_laws;
pub mod value_examples;
pub mod value_laws;
