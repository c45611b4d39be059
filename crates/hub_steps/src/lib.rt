//! The steps of one seat of a hub: turns, draws, works, the charge and the stop.
#![tactic(auto)]

mod steps;
mod works;

pub use crate::steps::{give_turns, halt, pay, take_turns};
pub use crate::works::{draw_and_tell, find_work, may_go};
