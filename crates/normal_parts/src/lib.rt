//! The names that patterns and declarations bind, and parts of normal terms, of what stands in them.
#![tactic(auto)]

pub mod bind;
pub mod ground;
pub mod parts;

pub use bind::{bind_binds, bind_declared, bind_pattern};
pub use ground::{copy_ground, origins, rest_of};
pub use parts::closed_parts;
