//! States that are made and shown: the empty one is kept and its report put; another is read from its file, and its report and its rows,
//! a line for each, are put.
#![tactic(auto)]

mod empty;
mod fetch;
mod inspects;
mod lines;

pub use empty::genesis;
pub use inspects::inspect;
