//! The least allowed step among rows.
//!
//! Receivers are tried in the order of their ids. The binds of a receiver stand on channels of which no
//! two are congruent, so what one takes leaves the choice for the others as it is: the least list of data
//! has for each bind the datum with the least id that it matches.
#![tactic(auto)]

mod choices;
pub mod laws;
mod least;
mod rows;
mod sends;

pub use least::{LeastStep, first_reducible};
pub use rows::built_in_rows;
