//! Why a source or a state is refused: the broken rules of scope, with those that take no walk, and the faults of the parser, of sources
//! and of states.
#![tactic(auto)]

pub mod declared;
pub mod fault;
pub mod members;
pub mod parse_fault;
pub mod source_fault;
pub mod state_fault;
pub mod variables;

pub use declared::declarations;
pub use fault::ScopeFault;
pub use members::members_fit;
pub use parse_fault::ParseFault;
pub use source_fault::SourceFault;
pub use state_fault::StateFault;
pub use variables::{check_rest, name_variable, new_variable, process_variable};
