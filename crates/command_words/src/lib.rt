//! The words of the program `rho`: what each line of them asks for, or why it is refused.
#![tactic(auto)]

pub mod argument;
pub mod command;
mod fault;
mod matches;
mod number;
pub mod read;
pub mod usage;

pub use argument::Argument;
pub use command::{Command, Run, Verb, Workload};
pub use read::read_command;
pub use usage::Usage;
