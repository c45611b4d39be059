//! The entries that a worker draws with shards in hand: that its operation is stored, or a step that is made with what it meets.
#![tactic(auto)]

pub mod drawing;
pub mod making;
pub mod taken;
