//! Event logs: what a run was made from and the steps that it made, in order, and their bytes. What is written of steps in memory is
//! read again, and a log that was read may be written.
#![tactic(auto)]

pub mod fault;
pub mod laws;
pub mod log;
pub mod read;
pub mod readable_laws;
mod steps;
pub mod write;

pub use fault::LogFault;
pub use log::{Log, LogHeader, LogStep, MOST_DATA, MOST_STEPS};
pub use read::read_log;
pub use steps::steps_are_readable;
pub use write::write_log;
