//! A table of rows: each by its id, and the ids of sends and of receives by channel. What is put can be taken back.
//!
//! Putting a row, taking one out and finding the first on a channel cost the logarithm of the number of rows,
//! times the number of the row's channels.
#![tactic(auto)]

mod groups;
mod ids;
mod keys;
pub mod table;

pub use table::RowTable;
