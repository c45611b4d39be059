//! The shards of a row as bits, and the one shard that it is taken out of where shards are put together.
#![tactic(auto)]

pub mod bits;
pub mod gathering;

pub use bits::{counted_bits, row_bits};
pub use gathering::{gather_home, home_of};
