//! Evaluation: the value of a closed process, its price, and its first fault.
#![tactic(auto)]

pub mod evaluation;
mod limits;
mod operation;
pub mod owned;

pub use evaluation::{eval_part, eval_term, eval_terms, evaluate};
pub use limits::limited;
pub use owned::eval_owned;
