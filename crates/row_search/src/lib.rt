//! The first choice of rows that meet, one of them a given operation.
//!
//! The binds of a receiver stand on channels of which no two are congruent, so a datum can serve one
//! bind alone: what is chosen for one bind leaves the choice for the others as it is, and the first
//! send that a bind takes is right whatever the others take.
#![tactic(auto)]

mod choices;
mod compare;
mod found;
pub mod laws;
pub mod rows;

pub use found::first_step;
pub use rows::RowsAtHand;
