//! The rows of a space in 64 shards, and the steps that the shards in hand allow.
//!
//! A send stands in the shard of its channel, and a receive in that of each of its channels. A worker takes the shards of an
//! operation's own channels in hand, asks which shards the rows there show for it, takes all of these, and then looks for a
//! step: what it meets in hand is what it meets in the whole space.
#![tactic(auto)]

mod bits;
mod gathering;
mod hand;
mod held;
mod places;
mod shard;
mod spreading;
mod tables;
pub mod threads;

pub use held::Held;
pub use shard::Shard;
pub use tables::SpaceTables;
pub use threads::{held_crosses, shard_crosses, table_crosses};
