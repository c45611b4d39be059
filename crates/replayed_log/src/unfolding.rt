//! What unfolds the steps of a log.
ghost use Rattle.std.specs.Prelude.{◌<◌, ◌-◌, ◌^◌, All, IfOk};
ghost use Rattle.calculus.specs.Form.{IsClosed};
ghost use Rattle.calculus.specs.Substitution.{put};
ghost use Rattle.replayed_log.specs.Unfolding.{IsUnfoldedStep};

use calculus::FaultKind;
use found_rows::Found;
use name_seed::Seed;
use price_table::Prices;
use space_row::Row;
use std::alloc::{AllocError, Global};

/// What a step came to.
#[derive(Drop)]
pub struct UnfoldedStep {
    /// The price of its body, which is one more than the cap where it passed the cap.
    pub price: u64,
    /// What its body offers: nothing where there is a fault or the price passed the cap.
    pub offers: Vec<Row>,
    /// The first fault of its body, where the price did not pass the cap before it.
    pub fault: Option<FaultKind>,
    /// The line that it prints, with its line feed; empty unless its receiver is a built-in one.
    pub line: Vec<u8>,
}

/// What unfolds steps.
pub trait StepUnfolder {
    /// What a step with what was found comes to, under this seed and with this cap of its body's price. Want of memory is the
    /// one error.
    fn unfold_step(
        alloc: Global,
        found: &Found,
        seed: &Seed,
        prices: &Prices,
        cap: u64,
    ) -> Result<UnfoldedStep, AllocError>
        requires cap { cap < 2 ^ 64 - 1 }
        requires bound { All IsClosed found.now.bound.items }
        requires closed { IsClosed (put found.now.bound.items found.now.body) }
        ensures { IfOk result (IsUnfoldedStep prices.now cap found.now seed.now) };
}
