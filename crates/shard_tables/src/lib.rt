//! Rows of a space in 64 shards, and the shards that a worker has in hand: what tables of them do.
#![tactic(auto)]

mod tables;

pub use crate::tables::ShardTables;
