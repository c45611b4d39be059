//! Whether a receiver and given sends meet, one send for each of its binds in their order, and what they
//! come to.
//!
//! Nothing is searched here: the caller names the rows, as a step of a log does.
#![tactic(auto)]

mod binds;
pub mod meeting;

pub use meeting::meet_rows;
