//! Lists of a hub: its slots, room for what it leaves, and things in the order of their numbers.
#![tactic(auto)]

mod order;
mod room;
mod slots;

pub use crate::order::in_order;
pub use crate::room::{Room, room_for};
pub use crate::slots::{slots_of, take_left, take_shards};
