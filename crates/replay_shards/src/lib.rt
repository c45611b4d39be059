//! The shards of a replay: the rows that have arrived, found by their ids, and which step of the log they fit.
#![tactic(auto)]

mod attempt;
mod early;
mod fit;
mod held;
mod next;
pub mod ready;
mod shard;
mod taking;

pub use held::ReplayHeld;
pub use next::first_tries;
pub use ready::{Ready, Try};
pub use replay_rows::{ShardedChannel, ShardedRow, sharded_rows};
pub use shard::ReplayShard;
