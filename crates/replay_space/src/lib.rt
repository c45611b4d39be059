//! What a worker of a replay reads of a log.
#![tactic(auto)]

mod draft;
pub mod examples;
mod index;
pub mod laws;
mod lists;
mod naming;
mod repeats;
pub mod rig;
pub mod seen;

pub use rig::Rig;
pub use seen::Seen;
