// What unfolds the steps of a log.
use found_rows::Found;
use name_seed::Seed;
use price_table::Prices;
use replayed_log::{StepUnfolder, UnfoldedStep};
use std::alloc::{AllocError, Global};
use unfold::{line_of, work_body};

/// What unfolds steps.
#[derive(Drop)]
pub(crate) struct Unfolder;

impl StepUnfolder for Unfolder {
    fn unfold_step(
        alloc: Global,
        found: &Found,
        seed: &Seed,
        prices: &Prices,
        cap: u64,
    ) -> Result<UnfoldedStep, AllocError> {
        let line = line_of(alloc, found)?;
        let worked = work_body(
            alloc,
            &found.body,
            found.bound.as_slice(),
            seed,
            prices,
            cap,
        )?;
        Ok(UnfoldedStep {
            price: worked.price,
            offers: worked.offers,
            fault: worked.fault,
            line,
        })
    }
}
