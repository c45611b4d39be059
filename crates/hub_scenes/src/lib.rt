//! What entries of a hub mean: of any hub, while a deploy runs, and while a log is replayed. Each law of the definitions is
//! the contract of a function that does nothing.
#![tactic(auto)]

pub mod examples;
pub mod play_laws;
pub mod replay_laws;
pub mod scene_laws;
