//! Offered rows: what a send or a receive puts on offer, once its channels and arguments are evaluated.
#![tactic(auto)]

mod names;
mod opened;
mod placed;
mod receive;
mod row;
mod send;

pub use receive::{Receive, offer_receive};
pub use send::offer_send;
