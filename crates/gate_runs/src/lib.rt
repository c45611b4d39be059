//! Two workers of a play, of a deploy and of a replay that are at work at once.
#![tactic(auto)]

mod channels;
mod direct;
mod plays;
mod runs;

use call_harness::{Ended, Meeting, Outside};
use std::alloc::{AllocError, Global};
use std::sync::Wait;
use std::thread::Threads;
use table_lines::LineFault;

/// What each call came to, a line each.
pub fn told<
    R: Threads + Wait + Sync,
    F: Fn(&Meeting, &[String], &mut Outside) -> Result<Ended, AllocError>,
>(rt: &R, run: &F, alloc: Global) -> Result<String, LineFault>
    requires { F.IsAlwaysCallable run.now }
{
    let mut text = plays::told(rt, alloc)?;
    text.push_str(runs::told(rt, run, alloc)?.as_str())?;
    Ok(text)
}
