//! Rows, channels and shards of a replay may cross threads, and threads may share a log that is replayed.
use crate::log_replay::LogReplay;
use replay_shards::{ReplayHeld, ReplayShard, ShardedChannel, ShardedRow};

// Takes a thing that threads may share.
fn shares<T: Sync>(_thing: &T) {}

// Takes a thing that may cross threads, and that threads may share.
fn crosses<T: Send + Sync>(_thing: &T) {}

/// A channel may cross threads, and threads may share it. The lemmas of these proofs serve callers.
pub fn channel_crosses(channel: &ShardedChannel) {
    crosses(channel);
}

/// So it is of a row.
pub fn row_crosses(row: &ShardedRow) {
    crosses(row);
}

/// And of a shard.
pub fn shard_crosses(shard: &ReplayShard) {
    crosses(shard);
}

/// And of the shards in hand.
pub fn hand_crosses(held: &ReplayHeld) {
    crosses(held);
}

/// Threads may share a log that is replayed, where they may share its names and what unfolds its steps.
pub fn log_is_shared<N: Sync, U: Sync>(log: &LogReplay<N, U>) {
    shares(log);
}
