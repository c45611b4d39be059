//! The groups of channels of the receives of a table, and which of them hold a channel.
//!
//! An index has a list of groups with repeats, in the order in which they were added, and a number of groups that may be put
//! without taking memory. It keeps each group once, with its number.
#![tactic(auto)]

pub mod examples;
pub mod index;

pub use index::JoinIndex;
