//! Operators and methods on ground values, and equality of any values.
#![tactic(auto)]

mod equality;
mod ints;
pub mod methods;
pub mod operators;
pub mod stop;
mod texts;
mod values;

pub use methods::text_method;
pub use operators::{binary, unary};
pub use stop::OpStop;
