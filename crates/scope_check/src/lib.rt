//! The rules of scope that a written process may break, and how many wide and thin parts a pattern has.
#![tactic(auto)]

mod check;
pub mod scoped;
pub mod wide;

pub use input_faults::ScopeFault;
pub use scoped::check_scope;
pub use wide::is_wide;
