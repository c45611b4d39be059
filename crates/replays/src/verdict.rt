use calculus::FaultKind;

/// How a run ended.
#[derive(Clone, Copy, Debug, PartialEq, Eq)]
pub enum Verdict {
    /// No step is allowed any more.
    Done,
    /// The price passed the limit.
    Exhausted,
    /// The source, where `step` is None, or the body of that step has a fault. Steps are counted from 0.
    Faulted { step: Option<u32>, kind: FaultKind },
}
