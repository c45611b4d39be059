//! Entries.
ghost use Rattle.event_log.specs.View.{TakesInRange};

use calculus::{Digest, FaultKind};
use event_log::LogStep;
use space_row::Row;
use std::snapshot::Snapshot;

/// A step that an operation made, with as many data as a step may take. The ids of the rows that leave and the rows that the body offers are seen by contracts alone.
#[derive(Drop)]
pub struct MadeStep {
    pub step: LogStep,
    pub gone: Snapshot<Vec<Digest>>,
    pub offers: Snapshot<Vec<Row>>,
    /// The price of the step with that of its body.
    pub price: u64,
    /// The fault of its body.
    pub fault: Option<FaultKind>,
    /// The line that it prints, empty unless the receiver is a built-in one.
    pub line: Vec<u8>,
    ghost range: { TakesInRange step },
}

/// What a seat draws: an operation was stored, or made a step. The operation is seen by contracts alone.
#[derive(Drop)]
pub struct PlayEntry {
    pub operation: Snapshot<Row>,
    pub made: Option<MadeStep>,
    /// The bits of the shards that the entry touches.
    pub touched: u64,
}
