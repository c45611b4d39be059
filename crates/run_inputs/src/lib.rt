//! What a deploy and a replay need: their files are fetched and checked, each just before it is needed.
//!
//! The first refusal ends it, with the status that says it. Nothing is kept or put here. The base, the state that a run starts from, has its
//! rows in normal order.
#![tactic(auto)]

pub mod acceptance;
mod base;
pub mod fetch;
pub mod laws;
mod normal;

pub use acceptance::{Inputs, ReplayInputs, accept, accept_replay};
pub use base::read_base;
pub use fetch::Base;
pub use state_reader::StateFault;
