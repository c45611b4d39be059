//! Tables of rows may cross threads, and threads may share them.

use crate::{Held, Shard};
use row_table::RowTable;

/// Takes a thing that may cross threads, and that threads may share.
fn crosses<T: Send + Sync>(_thing: &T) {}

/// A table of rows is such a thing. The lemmas of this proof serve callers.
pub fn table_crosses(table: &RowTable) {
    crosses(table);
}

/// So is a shard.
pub fn shard_crosses(shard: &Shard) {
    crosses(shard);
}

/// So are the shards in hand.
pub fn held_crosses(held: &Held) {
    crosses(held);
}
