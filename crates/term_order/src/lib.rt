//! The order of terms, which is the order of their codes, found without them.
//!
//! It makes no code and takes no memory: both terms are walked to the first place where they differ.
//! What suits is in normal order, has forms of their sorts alone and no empty tuple, and its code is
//! shorter than 2^32 bytes. Of such terms two are equal exactly where their processes are congruent.
#![tactic(auto)]

mod binds;
pub mod examples;
mod ground;
pub mod laws;
pub mod pairs;
pub mod parts;
mod patterns;
pub mod terms;

pub use pairs::pair_order;
pub use parts::part_order;
pub use terms::{cmp_terms, term_order};
