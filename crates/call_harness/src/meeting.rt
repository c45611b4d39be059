//! A gate at which the first worker that has shards in hand waits for another.
use rho_outside::{Gate, Moment};
use std::sync::{Mutex, Wait};
use std::thread;

/// How often the first worker looks before it gives up.
const MOST_LOOKS: u32 = 10_000_000;

/// The first worker that had shards in hand, and what came of its wait.
#[derive(Drop, Clone, Copy)]
struct Seen {
    came: bool,
    worker: u32,
    shards: u64,
    met: bool,
    failed: bool,
}

/// A gate whose first worker to have shards in hand waits there until another one gave shards home of which none is its; or one at
/// which nobody waits.
#[derive(Drop)]
pub struct Meeting {
    waits: bool,
    seen: Mutex<Seen>,
}

impl Meeting {
    /// A gate at which the first worker waits.
    pub fn new() -> Meeting {
        Meeting::with(true)
    }

    /// A gate at which nobody waits.
    pub fn open() -> Meeting {
        Meeting::with(false)
    }

    fn with(waits: bool) -> Meeting {
        Meeting {
            waits,
            seen: Mutex::new(Seen {
                came: false,
                worker: 0,
                shards: 0,
                met: false,
                failed: false,
            }),
        }
    }

    // Whether no worker had shards in hand before this one.
    fn is_first<R: Wait>(&self, rt: &R, worker: u32, shards: u64) -> bool {
        let mut seen = self.seen.lock(rt);
        if seen.came {
            return false;
        }
        seen.came = true;
        seen.worker = worker;
        seen.shards = shards;
        true
    }

    // Whether another worker gave other shards home while the first one waited.
    fn has_met<R: Wait>(&self, rt: &R) -> bool {
        self.seen.lock(rt).met
    }

    /// Whether another worker gave other shards home while the first one waited, and whether the first gave up.
    pub fn outcome<R: Wait>(&self, rt: &R) -> (bool, bool) {
        let seen = self.seen.lock(rt);
        (seen.met, seen.failed)
    }

    // Waits for another worker.
    fn wait<R: Wait>(&self, rt: &R) {
        for _ in 0..MOST_LOOKS {
            if self.has_met(rt) {
                return;
            }
            thread::yield_now();
        }
        self.seen.lock(rt).failed = true;
    }

    // Tells that a worker gave shards home.
    fn tell<R: Wait>(&self, rt: &R, worker: u32, shards: u64) {
        let mut seen = self.seen.lock(rt);
        if seen.came && seen.worker != worker && seen.shards & shards == 0 {
            seen.met = true;
        }
    }
}

impl Gate for Meeting {
    fn pass<R: Wait>(&self, rt: &R, worker: u32, moment: Moment) {
        if !self.waits {
            return;
        }
        match moment {
            Moment::Held { shards } => {
                if self.is_first(rt, worker, shards) {
                    self.wait(rt);
                }
            }
            Moment::Freed { shards } => self.tell(rt, worker, shards),
        }
    }
}
