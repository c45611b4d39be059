//! A hub: turns of 64 shards, and one sequence of entries, for up to 32 seats that work side by side.
#![tactic(auto)]

mod close;
mod hub;
mod seat;
mod state;

pub use crate::close::Closed;
pub use crate::hub::{Hub, Pool};
pub use crate::seat::Seat;
pub use crate::state::SeatState;
pub use hub_rule::{Opened, Pile, Rule, Scene, Slot, StopCause, Tally, Terms, View};
