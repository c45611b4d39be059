//! A replay of a log by many workers.
#![tactic(auto)]

pub mod pool;

pub use crate::pool::replay_side_by_side;
