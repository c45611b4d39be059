//! What a step may be done with.
use found_rows::Found;
use replay_rows::sharded::ShardedChannel;

/// The number of a step that is to be tried, with a channel of one of the rows that it names.
#[derive(Drop)]
pub struct Try {
    pub step: u32,
    pub channel: ShardedChannel,
}

/// Rows that fit a step: what they bind, and the tries that follow once it is done.
#[derive(Drop)]
pub struct Ready {
    pub found: Found,
    pub next: Vec<Try>,
}
