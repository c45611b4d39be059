//! What a closed process offers to the tuple space: its sends and receives with ids, at which price, or its first fault; what sources
//! and bodies of steps come to so, and what a step prints.
//!
//! What is still to be unfolded stands in a list, so the native stack stays small however deep an unfolding goes.
#![tactic(auto)]

mod inner;
mod limits;
pub mod lines;
mod offers;
mod turns;
pub mod unfolding;
pub mod work;

pub use lines::line_of;
pub use unfolding::{unfold, unfold_body};
pub use work::{Worked, rows_of, work_body, work_source};
