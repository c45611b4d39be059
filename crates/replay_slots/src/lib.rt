//! Shards in 64 places: rows that arrive in them and are found there by their ids, and what a step makes of them.
#![tactic(auto)]

mod finding;
mod full;
mod places;
mod slots;

pub use finding::find_in;
pub use full::has_full_row;
pub use places::{first_from, widened};
pub use slots::{Slot, arrive_at, arrive_in, settle_all};
