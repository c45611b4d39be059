//! Seats of a play may cross threads, and threads may share its hub.

use crate::{PlayScene, PlayTerms};
use group_locks::{Hub, Seat};
use shard_tables::ShardTables;

/// Takes a thing that may cross threads.
fn crosses<A: Send>(_thing: &A) {}

/// Takes a thing that threads may share.
fn shared<A: Sync>(_thing: &A) {}

/// A seat is such a thing.
pub fn seat_crosses<J: PlayTerms + Sync, T: ShardTables + Sync>(seat: &Seat<PlayScene<J, T>>) {
    crosses(seat);
}

/// So is a hub, which threads may share.
pub fn hub_is_shared<J: PlayTerms + Sync, T: ShardTables + Sync>(hub: &Hub<PlayScene<J, T>>) {
    shared(hub);
}
