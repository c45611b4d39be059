//! A play by many workers.
#![tactic(auto)]

mod closing;
mod opening;
mod pool;
mod workers;

pub use crate::pool::play_side_by_side;
