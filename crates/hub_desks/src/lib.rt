//! The steps of one seat of a hub on desks and on the count of what is pending, and its waits.
#![tactic(auto)]

mod desks;

pub use crate::desks::{
    leave_works, look_round, ring, sleep_for_bell, sleep_for_turn, tell, wake_turn,
};
