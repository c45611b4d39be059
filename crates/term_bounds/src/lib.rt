//! How many variables terms bind for what is around them, as far as a u64 counts.
#![tactic(auto)]

pub mod bound;

pub use bound::{bind_bound, binds_bound, pat_bound, plus, term_bound};
