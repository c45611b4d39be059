//! How a call of the interpreter ended: its status, the exit status of the program, and the line for standard error.
#![tactic(auto)]

mod causes;
pub mod status;
mod wording;

pub use command_words::Usage;
pub use replays::Verdict;
pub use status::{Input, Status, status_of};
