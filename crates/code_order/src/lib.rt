//! Parts, members and pairs in the order of their codes, and normal terms of parts in any order.
#![tactic(auto)]

mod coded;
mod compared;
mod keyed;
pub mod make;
pub mod order;

pub use keyed::in_order;
pub use make::{make_par, with_order};
pub use order::{sorted_pairs, sorted_parts, sorted_terms};
