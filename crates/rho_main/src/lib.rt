//! The interpreter's top call: from the words of a command line, through files and an output, to a status.
#![tactic(auto)]

pub mod accepting;
pub mod top;

pub use accepting::{Accepted, accept};
pub use command_words::{Run, Usage, Workload};
pub use price_table::Prices;
pub use run_inputs::{Base, Inputs, ReplayInputs};
pub use run_status::{Input, Status, Verdict};
pub use top::run;
