//! The fixed names, which a `new` makes of a URI, and the receivers behind them, which no state holds.
//!
//! | URI | origin | name | receiver |
//! |---|---|---|---|
//! | `rho:io:stdout` | `Origin::Stdout` | number 0 | number 2 |
//! | `rho:io:stdoutAck` | `Origin::StdoutAck` | number 1 | number 3 |
//!
//! A number is that of the system's seed whose digest is the name, or the receiver's id. What a `new`
//! makes of a URI is the name in a bundle that lets write alone; the receiver is on the name itself.
#![tactic(auto)]

pub mod names;
pub mod receivers;

pub use names::{fixed_name, made_name, uri_name};
pub use receivers::built_ins;
