//! The height and the code length of a process with values put in.
#![tactic(auto)]

pub mod size;

pub use size::put_size;
