//! The scene of a replay for a hub: its entries and jobs as Rust values, over a type for what a shard holds.
#![tactic(auto)]

pub mod deed;
pub mod ends;
pub mod laws;
pub mod scene;
pub mod terms;
pub mod worker;

pub use crate::deed::{Arrived, Coming, Did, Entry, Made, Task, Try};
pub use crate::ends::close_replay;
pub use crate::scene::ReplayScene;
pub use crate::terms::ReplayTerms;
