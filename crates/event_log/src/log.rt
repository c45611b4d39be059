use calculus::Digest;

/// The most steps that a log may have.
pub const MOST_STEPS: usize = 1_048_608;

/// The most data that a step may have, one for each bind of its receiver.
pub const MOST_DATA: usize = 16;

/// What a run was made from.
#[derive(Clone, Copy, Debug, PartialEq, Eq)]
pub struct LogHeader {
    /// The root of the checkpoint that the run starts at.
    pub base: Digest,
    /// The digest of the source's bytes.
    pub source: Digest,
    /// The digest of the prices.
    pub prices: Digest,
    /// The most that the run may cost.
    pub limit: u64,
}

/// One step: a receiver that takes one datum for each of its binds.
#[derive(Debug, Drop, PartialEq, Eq)]
pub struct LogStep {
    /// The id of the receiver.
    pub cont: Digest,
    /// The ids of the data, in the order of the receiver's sorted binds.
    pub taken: Vec<Digest>,
    /// How often the very same step was made before.
    pub repeat: u32,
}

/// What a run was made from, and its steps in order.
#[derive(Debug, Drop, PartialEq, Eq)]
pub struct Log {
    pub header: LogHeader,
    /// The steps, the first one first.
    pub steps: Vec<LogStep>,
}
