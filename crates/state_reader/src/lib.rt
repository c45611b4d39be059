//! The reading of states: the checkpoint whose text bytes are, or why they are none. Each law of it stands in the contract of a function
//! that does nothing.
#![tactic(auto)]

mod front;
mod header;
pub mod laws;
mod read;
mod state;

pub use input_faults::StateFault;
pub use state::read_state;
