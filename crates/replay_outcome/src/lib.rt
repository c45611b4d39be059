//! What the done steps of a replay come to: the first step of the log that is not done, or verdict, cost and output.
#![tactic(auto)]

pub mod places;
pub mod settling;
pub mod sum;

pub use crate::settling::{Ending, Settled, settle};
