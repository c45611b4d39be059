//! A reader of the codes of normal terms: what stands in them beside terms and patterns.
#![tactic(auto)]

mod fields;
pub mod reader;
mod text;

pub use code_faults::{ReadFault, Sense, TextKind};
pub use reader::{Reader, check_order};
