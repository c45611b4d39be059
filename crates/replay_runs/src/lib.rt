//! The answer to a replay of a log by 1 to 32 workers.
#![tactic(auto)]

mod basis;
pub mod ending;
mod racing;
pub mod runs;
mod unfolding;

pub use ending::{Raced, answer_of};
pub use replay_answers::{ReplayFault, Replayed};
pub use runs::replay;
