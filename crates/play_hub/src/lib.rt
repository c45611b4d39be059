//! A play as a scene of the hub: entries, operations and shards as values of Rust, and the end of a hub over them. Its seats may cross
//! threads.
#![tactic(auto)]

mod entry;
pub mod laws;
mod scene;
mod terms;
pub mod threads;

pub use crate::entry::{MadeStep, PlayEntry};
pub use crate::scene::PlayScene;
pub use crate::terms::PlayTerms;
pub use crate::threads::{hub_is_shared, seat_crosses};
