//! Whether a process uses a name that it does not bind.
#![tactic(auto)]

pub mod open;

pub use open::uses_more;
