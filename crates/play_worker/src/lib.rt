//! One worker of a play: it takes an operation, takes the shards in hand that it needs, has an entry drawn with them, and goes on until it
//! finds an end.
#![tactic(auto)]

pub mod group;
pub mod site;
pub mod turn;
pub mod worker;
