//! The source that a workload plays and replays: four lanes that count down, and take so many steps together.
#![tactic(auto)]

mod examples;
mod lanes;
mod laws;

pub use examples::made_examples;
pub use lanes::made_input;
pub use laws::made_inputs_are_short;
