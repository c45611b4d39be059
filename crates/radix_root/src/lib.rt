//! The root of a state, changed in place.
//!
//! The groups of rows stand in a tree by the half bytes of their keys. Each node keeps its digest, so that a change of
//! one group makes at most 65 digests of nodes, and each other node's digest stays.
#![tactic(auto)]

mod digests;
mod group;
mod held;
mod many;
mod node;
mod tree;

pub use digests::slices_of;
pub use group::Group;
pub use tree::RadixTree;
