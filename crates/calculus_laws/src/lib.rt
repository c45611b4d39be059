//! What is proved of the definitions of the calculus, and worked examples, each proved by computing with them.
#![tactic(auto)]

pub mod code_laws;
pub mod congruence_laws;
pub mod examples;
pub mod laws;
pub mod list_laws;
pub mod substitution_laws;
