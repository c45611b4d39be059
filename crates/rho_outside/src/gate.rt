use std::sync::Wait;

/// A point that a worker passes.
///
/// `shards` has bit `k` set for each shard `k` of the group that the worker holds or held, for `k` from 0 to 63.
#[derive(Clone, Copy, Debug, PartialEq, Eq)]
pub enum Moment {
    /// The group is held, and nothing is committed yet.
    Held { shards: u64 },
    /// The turns of the group were given back.
    Freed { shards: u64 },
}

/// A place where a test may hold a worker up. It has no state and changes nothing.
pub trait Gate {
    /// Lets the worker of this number, counted from 0, pass the moment. It may wait, and then never return.
    fn pass<R: Wait>(&self, rt: &R, worker: u32, moment: Moment);
}

/// A gate that lets every worker go on at once.
#[derive(Clone, Copy, Debug, Default)]
pub struct OpenGate;

impl Gate for OpenGate {
    fn pass<R: Wait>(&self, _rt: &R, _worker: u32, _moment: Moment) {}
}
