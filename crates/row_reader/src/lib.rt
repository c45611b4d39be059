//! Rows at the front of bytes, by their codes.
#![tactic(auto)]

mod front;

pub use front::{RowFault, decode_row};
