//! Who works side by side, and work that is done side by side.
#![tactic(auto)]

pub mod crew;
mod numbering;
pub mod threads;

pub use crew::Crew;
pub use threads::side_by_side;
