//! The answer to a log, how a run ended, and why a log is refused: each log has one answer. Each law is the contract of a
//! function that does nothing.
#![tactic(auto)]

pub mod fault;
pub mod replay_examples;
pub mod replay_laws;
pub mod run_examples;
pub mod run_laws;
pub mod verdict;

pub use fault::ReplayFault;
pub use verdict::Verdict;
