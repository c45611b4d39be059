//! Who works side by side.
ghost use Rattle.std.specs.Prelude.{◌≤◌};

use std::alloc::Global;

/// Who works side by side: the runtime by which workers wait, memory, the gate that they pass, and how many they are, which is 1 to 32.
#[derive(Drop)]
pub struct Crew<'a, R, G> {
    pub rt: &'a R,
    pub alloc: Global,
    pub gate: &'a G,
    pub workers: u32,
    pub ghost range: { (1 ≤ workers) × (workers ≤ 32) },
}
