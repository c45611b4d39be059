//! Searches over bytes by lanes, sixteen bytes a step.
#![tactic(auto)]

mod class;
mod difference;

pub use class::{ByteClass, class_run};
pub use difference::first_difference;
