//! Sources: the normal term of the process that a text spells, or why it is refused.
#![tactic(auto)]

pub mod laws;
pub mod reading;

pub use input_faults::SourceFault;
pub use reading::read_source;
