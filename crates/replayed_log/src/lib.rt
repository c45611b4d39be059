//! A log that is replayed, over shards that keep their rows by id: what a worker asks of it.
#![tactic(auto)]

mod bits;
pub mod log_replay;
mod making;
pub mod names;
pub mod shared;
mod tables;
mod tries;
pub mod unfolding;

pub use crate::log_replay::LogReplay;
pub use crate::names::ReplayNames;
pub use crate::unfolding::{StepUnfolder, UnfoldedStep};
