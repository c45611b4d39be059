//! Deploys, replays and workloads: a source is run from a state, a log is repeated, or made input is played and its log replayed; what
//! that leaves is kept and put, or it is refused.
#![tactic(auto)]

pub mod deploys;
mod inputs;
pub mod laws;
pub mod next;
mod outcomes;
mod plans;
pub mod replaying;
pub mod workers;
mod workloads;

pub use deploys::{Plan, deploy_accepted, make_plan};
pub use replaying::{ReplayPlan, make_replay_plan, replay_accepted};
pub use workers::worker_count;
pub use workloads::workload;
