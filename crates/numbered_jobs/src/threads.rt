//! Work that is done side by side.
ghost use Rattle.std.specs.Prelude.{◌≡◌, ℕ, ◌≤◌, length, IfOk};
ghost use Rattle.std.specs.List.{All};

use crate::numbering::numbered;
use std::alloc::{AllocError, Global};
use std::thread;
use std::thread::Threads;

/// Does the work at each of up to 32 things, with its number, counted from 0, each in a thread of its own, and answers what
/// the work came to at each. Want of memory is the one error.
pub fn side_by_side<R: Threads + Sync, T: Send + Drop, F: FnOnce(u32, T) -> T + Copy + Sync>(
    rt: &R,
    alloc: Global,
    things: Vec<T>,
    work: &F,
) -> Result<Vec<T>, AllocError>
    requires few { length things.items ≤ 32 }
    requires accepts { (number : ℕ) → All (λ t. F.pre work.now number t) things.items }
    ensures count { IfOk result (λ v. length v.items ≡ length things.items) }
    ensures each { IfOk result (λ v. All (λ r. (number : ℕ) × (t : _) × F.post work.now number t r) v.items) }
{
    let jobs = numbered(alloc, things)?;
    thread::map_vec(
        rt,
        jobs,
        &|job: (u32, T)| -> T
            requires { F.pre work.now job.0 job.1 }
            ensures { F.post work.entry.now job.0 job.1 result }
        {
            let (number, thing) = job;
            (*work)(number, thing)
        },
    )
}
