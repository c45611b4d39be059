//! Where a worker runs.
use rho_outside::{Gate, Moment};
use std::alloc::Global;
use std::sync::Wait;

/// Where a worker runs: the runtime by which it waits, memory, the gate that it passes, and its number, counted from 0.
#[derive(Drop)]
pub struct Site<'a, R, G> {
    pub rt: &'a R,
    pub alloc: Global,
    pub gate: &'a G,
    pub worker: u32,
}

impl<'a, R: Wait, G: Gate> Site<'a, R, G> {
    // Passes the gate.
    pub(crate) fn pass(&self, moment: Moment) {
        self.gate.pass(self.rt, self.worker, moment);
    }
}
