//! Normal terms of written processes.
#![tactic(auto)]

mod make;
mod maker;
pub mod normal;

pub use input_faults::ScopeFault;
pub use normal::normalize;
