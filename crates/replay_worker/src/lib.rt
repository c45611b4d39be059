//! One worker of a replay: it takes a job, brings a row in or tries a step, and leaves the jobs that follow.
#![tactic(auto)]

mod arrival;
mod ends;
pub mod site;
pub mod tables;
mod trying;
pub mod worker;

pub use crate::site::Site;
pub use crate::tables::{Arriving, Doing, Looked, ReplayTables};
pub use crate::worker::work_through;
