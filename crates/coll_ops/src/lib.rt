//! Operators and methods on lists, tuples, sets and maps.
//!
//! The members of sets and maps ascend in their codes, and are kept so by merging: a union or a difference
//! of n members takes about n comparisons.
#![tactic(auto)]

mod binary;
mod keyed;
mod lists;
mod maker;
pub mod making;
mod maps;
mod merge;
pub mod ops;
mod sets;
mod views;

pub use making::{map_of, set_of};
pub use ops::{coll_binary, coll_method};
pub use value_ops::OpStop;
