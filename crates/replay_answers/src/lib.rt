//! What the answer to a replayed log is, and why its header is refused.
//!
//! The definitions stand in `specs/`. A replay by any number of workers is promised in their words.
#![tactic(auto)]

pub mod header;
pub mod laws;
pub mod replayed;

pub use header::check_header;
pub use replayed::Replayed;
pub use replays::ReplayFault;
