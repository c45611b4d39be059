//! A step that is tried.
use event_log::LogStep;
use replay_slots::Slot;
use replay_space::Rig;

/// A step of a log that is tried on shards in hand: these, what is kept of the log, its steps, and the number of the step.
#[derive(Clone, Copy)]
pub(crate) struct Attempt<'a> {
    pub slots: &'a [Slot],
    pub rig: &'a Rig,
    pub steps: &'a [LogStep],
    pub step: u32,
}
