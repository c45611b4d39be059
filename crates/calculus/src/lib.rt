//! The calculus: processes, names and patterns as they are written, and the definitions that every promise speaks in.
//!
//! The types are here; what they mean, and all that is said of them, stands in `specs/`, which
//! docs/CALCULUS.md tells in plain words.
#![tactic(auto)]

pub mod count;
pub mod fault;
pub mod ids;
pub mod plain;
pub mod process;

pub use count::Steps;
pub use fault::FaultKind;
pub use ids::Digest;
pub use plain::{BinaryOp, Decl, Ground, Kind, Origin, Rest, Rights, Simple, TermRest, UnaryOp};
pub use process::{Bind, Case, Name, NamePat, Pat, Proc};
