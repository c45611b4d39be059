//! The outside as the interpreter sees it: named files, an output, and a gate for tests.
//!
//! Each part is a trait, with a type over the system and one in memory whose calls can be made to fail.
#![tactic(auto)]

pub mod fault;
pub mod gate;
pub mod memory;
pub mod shelf;
pub mod sink;
pub mod system;

pub use fault::{FetchFault, KeepFault};
pub use gate::{Gate, Moment, OpenGate};
pub use memory::{CalmShelf, MemShelf, MemSink};
pub use shelf::Shelf;
pub use sink::Sink;
pub use system::{FileShelf, StdSink};
