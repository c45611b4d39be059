//! Entries and jobs.
//!
//! Rows and channels are of any types, which `ReplayTerms` gives a meaning.
use calculus::{Digest, FaultKind};
use event_log::LogStep;
use std::snapshot::Snapshot;

/// A row that is to arrive, and the number of the step that offered it; none for a row that the source offered.
#[derive(Drop)]
pub struct Coming<R> {
    pub row: R,
    pub from: Option<u32>,
}

/// The number of a step that is to be tried, with a channel of one of its rows.
#[derive(Drop)]
pub struct Try<C> {
    pub step: u32,
    pub channel: C,
}

/// A thing to do. Each entry ends the job that it takes.
#[derive(Drop)]
pub enum Task<R, C> {
    /// A row is to arrive.
    Arrive(Coming<R>),
    /// A step is to be tried.
    Index(Try<C>),
}

/// A row arrived, and its first use is to be tried. Both moved on, and are seen by contracts alone.
#[derive(Drop)]
pub struct Arrived<R, C> {
    pub coming: Snapshot<Coming<R>>,
    pub next: Snapshot<Vec<Try<C>>>,
}

/// A step is done. The channel of its try, the step, the ids of the rows that leave, the rows that its body offers and the
/// tries that follow are seen by contracts alone.
#[derive(Drop)]
pub struct Made<R, C> {
    /// The number of the step in the log.
    pub step: u32,
    pub channel: Snapshot<C>,
    pub made: Snapshot<LogStep>,
    pub gone: Snapshot<Vec<Digest>>,
    pub offers: Snapshot<Vec<R>>,
    pub next: Snapshot<Vec<Try<C>>>,
    /// What the step costs with its body.
    pub price: u64,
    /// The fault of its body.
    pub fault: Option<FaultKind>,
    /// What it prints: None where that is empty, as it is unless its receiver is a built-in one.
    pub line: Option<Box<Vec<u8>>>,
}

/// What an entry did.
#[derive(Drop)]
pub enum Did<R, C> {
    /// A row arrived.
    Arrived(Arrived<R, C>),
    /// A step was done.
    Done(Made<R, C>),
    /// A try was idle, which is seen by contracts alone.
    Idle(Snapshot<Try<C>>),
}

/// An entry, with the bits of the shards that it touches.
#[derive(Drop)]
pub struct Entry<R, C> {
    pub did: Did<R, C>,
    pub shards: u64,
}
