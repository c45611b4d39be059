//! What workers make of pending operations: events, fresh digests, entries, the shards of a store, and the text of the state
//! that is left. Each law of the definitions is the contract of a function that does nothing.
#![tactic(auto)]

pub mod entry_examples;
pub mod entry_laws;
pub mod event_examples;
pub mod event_laws;
pub mod fresh_examples;
pub mod fresh_laws;
pub mod shard_examples;
pub mod shard_laws;
pub mod state_examples;
pub mod state_laws;
