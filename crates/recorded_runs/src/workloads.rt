ghost use Rattle.std.specs.Prelude.{string_bytes};
ghost use Rattle.run_reports.specs.World.{world};
ghost use Rattle.recorded_runs.specs.Workloads.{IsWorkload};

use crate::outcomes::status_after;
use crate::plans::make_work;
use crate::worker_count;
use command_words::Workload;
use numbered_jobs::Crew;
use rho_outside::{Gate, Shelf, Sink};
use run_reports::keep_and_put;
use run_status::Status;
use std::alloc::Global;
use std::sync::Wait;
use std::thread::Threads;

/// Plays and replays the made input of so many steps by as many workers as the words name, keeps the log of the play, and then
/// puts the report of the replay. Nothing is kept or put before the replay has ended.
pub fn workload<R: Threads + Wait + Sync, S: Shelf, O: Sink, G: Gate + Sync>(
    rt: &R,
    alloc: Global,
    asked: &Workload,
    shelf: &mut S,
    out: &mut O,
    gate: &G,
) -> Status
    ensures { IsWorkload asked.now.steps (string_bytes asked.now.log)
        (world (S.files shelf.old) (S.fetch_faults shelf.old) (S.keep_faults shelf.old) (O.written out.old) (O.faults out.old))
        (world (S.files shelf.new) (S.fetch_faults shelf.new) (S.keep_faults shelf.new) (O.written out.new) (O.faults out.new)) result }
{
    let crew = Crew {
        rt,
        alloc,
        gate,
        workers: worker_count(asked.workers),
    };
    match make_work(&crew, asked.steps) {
        Ok(work) => {
            let name = asked.log.as_str();
            let log = work.log.as_slice();
            let line = work.line.as_slice();
            let written = keep_and_put(alloc, shelf, out, (name, log), line);
            status_after(work.verdict, written)
        }
        Err(status) => status,
    }
}
