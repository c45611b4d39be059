//! Normal terms: processes without names, whose parts stand in the order of their codes.
//!
//! A `Term` is seen as the tree that it stands for. Its parts, and the members of the sets and maps
//! in it, ascend in their codes, wherever they stand.
#![tactic(auto)]

mod copy;
mod faults;
mod measure;
mod measures;
pub mod op;
mod room;
pub mod term;

pub use calculus::{Origin, TermRest};
pub use op::Op;
pub use room::with_room;
pub use term::{Part, PatPart, Term, TermBind, TermCase, TermPat};

/// The greatest height of a value, of a stored send or receive, and of a body with its values.
pub const MOST_HEIGHT: u32 = 400;

/// The greatest number of bytes of the code of a value, of a stored send or receive, and of a body with its values.
pub const MOST_BYTES: u64 = 1_048_576;
