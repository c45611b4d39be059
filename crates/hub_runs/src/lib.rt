//! Runs hubs over the scene of numbers, whose seats do works in threads, and tells what they leave: of lines, a kind of hub and how much
//! is done, and of cases.
#![tactic(auto)]

mod cases;
mod numbers;
mod runs;
mod work;

pub use crate::numbers::{Hand, Numbers};
pub use crate::work::{Busy, Site, do_work, side_by_side, spin, zeros};
pub use runs::answer;
use std::alloc::Global;
use std::rt::Clock;
use std::sync::Wait;
use std::thread::Threads;
use table_lines::LineFault;

/// A line of each case.
pub fn told<R: Threads + Wait + Sync + Clock>(rt: &R, alloc: Global) -> Result<String, LineFault> {
    let mut text = String::new(alloc);
    match cases::put_all(rt, alloc, &mut text) {
        Ok(()) => Ok(text),
        Err(fault) => Err(fault),
    }
}
