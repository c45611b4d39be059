//! Files and an output in memory over which the program is called, a gate that its workers pass, and what is told of a call. The program
//! itself stands above: who calls it gives what runs it.
#![tactic(auto)]

mod bytes;
mod calling;
mod ended;
mod harness;
mod meeting;
mod shown;

pub use calling::{MOST_BYTES, Told, call, file};
pub use ended::{Ended, Outside};
pub use harness::Harness;
pub use meeting::Meeting;
pub use shown::{Of, tell_all};
