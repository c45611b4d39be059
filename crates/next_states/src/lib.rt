//! The next state of a run: its root costs what changed since the state that the run started from.
#![tactic(auto)]

mod changed;
mod known;
mod left;
mod walk;

pub use checkpoint::MadeState;
pub use known::KnownState;
