//! How many are counted for each of 64 shards, by key.
//!
//! What is counted is a number whose bits are shards, under some keys. It is counted under each of them, and taken back again.
//! Then the bits of a key are those of all that is counted under it.
#![tactic(auto)]

mod counts;
pub mod keyed;

pub use keyed::{Key, ShardCounts};
