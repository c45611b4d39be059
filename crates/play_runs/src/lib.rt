//! A deploy played by 1 to 32 workers: what makes its steps, and what it comes to.
#![tactic(auto)]

mod asking;
mod counting;
mod known;
mod making;
pub mod means;
mod playing;
mod rows;

pub use crate::known::{KnownWork, known_work};
pub use crate::means::Means;
pub use crate::playing::play;
