//! The rows of a shard of a replay: each with its shards, found by their ids, and what a step makes of them.
#![tactic(auto)]

pub mod bits;
pub mod kept;
pub mod rows;
pub mod sharded;

pub use sharded::{ShardedChannel, ShardedRow, sharded_rows};
