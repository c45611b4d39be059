//! Rows that may be stored may cross threads, and threads may share them.

use crate::Row;

/// Takes a thing that may cross threads, and that threads may share.
fn crosses<T: Send + Sync>(_thing: &T) {}

/// A row is such a thing. The lemmas of this proof serve callers.
pub fn row_crosses(row: &Row) {
    crosses(row);
}
