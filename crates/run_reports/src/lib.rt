//! The lines that report what a call came to, and the last steps of a verb: it keeps its files and puts its bytes.
#![tactic(auto)]

pub mod finish;
pub mod reports;

pub use finish::{Halt, keep_and_put, keep_both_and_put};
pub use reports::{report, state_report};
