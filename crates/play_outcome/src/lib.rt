//! What a play comes to: its steps, verdict, cost, output and rows, from the entries and the shards of a hub that was closed.
#![tactic(auto)]

mod played;
mod settling;
pub mod tally;

pub use crate::played::{Played, outcome};
