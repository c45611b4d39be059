//! The 64 shards of a checkpoint's rows before a replay, and the rows of shards after it.
#![tactic(auto)]

pub mod gathering;
pub mod opening;

pub use gathering::rows_of;
pub use opening::open_shards;
