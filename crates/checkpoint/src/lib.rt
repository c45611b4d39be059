//! Checkpoints: the rows that a run starts from or leaves, with their root, and the text of their state.
#![tactic(auto)]

mod checkpoint;
mod groups;
mod keyed;
mod marks;
mod outcome;
mod page;
mod text;

pub use checkpoint::{Checkpoint, Parts};
pub use groups::{coded_tree, marked_tree, tree_of};
pub use marks::Mark;
pub use outcome::Outcome;
pub use replays::Verdict;
pub use text::{MadeState, made_state, state_of, text_of_codes, write_state};
