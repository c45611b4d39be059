//! By what a step is made.
use crate::making::make_ready;
use found_rows::Found;
use play_draws::making::{Ready, StepMaker};
use play_hub::PlayEntry;
use price_table::Prices;
use std::alloc::{AllocError, Global};

/// By what steps are made: the prices and the limit of the deploy.
#[derive(Drop, Clone, Copy)]
pub struct Means<'a> {
    pub prices: &'a Prices,
    pub limit: u64,
}

impl<'a> StepMaker for Means<'a> {
    ghost prices = { λ m. m.prices.now };

    ghost limit = { λ m. m.limit };

    fn make(
        &self,
        alloc: Global,
        found: Found,
        took: &[(u64, PlayEntry)],
        again: Option<u32>,
    ) -> Result<Ready, AllocError> {
        make_ready(alloc, *self, found, took, again)
    }
}
