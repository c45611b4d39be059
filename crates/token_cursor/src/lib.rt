//! The tokens of a source that are left, and the steps that take one of them.
#![tactic(auto)]

pub mod cursor;
pub mod level;
mod mark;

pub use cursor::Cursor;
pub use level::Level;
