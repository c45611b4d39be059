//! Rows that were found to meet, as a search answers them.
#![tactic(auto)]

mod found;

pub use found::Found;
