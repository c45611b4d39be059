//! The rows that sources offer: all their meetings by a plain walk, and the groups of their channels.
#![tactic(auto)]

mod groups;
mod kept;
mod reading;
mod walk;

pub use groups::{groups_with, put_terms};
pub use kept::Kept;
pub use reading::{MOST_COST, read_rows, read_term};
pub use walk::{allows, allows_nothing, are_different, meetings};
