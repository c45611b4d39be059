//! What steps offer, and what is kept of rows that come.
ghost use Rattle.calculus.specs.Form.{IsClosed};
ghost use Rattle.calculus.specs.Substitution.{put};

use calculus::Digest;
use event_log::{LogStep, MOST_DATA};
use found_rows::Found;
use name_seed::Seed;
use price_table::Prices;
use source_rows::MOST_COST;
use space_row::Row;
use std::alloc::{AllocError, Global};
use table_lines::LineFault;
use unfold::work_body;

/// A row, and the step that offered it; none did where the row is the source's.
#[derive(Drop)]
pub struct Coming {
    pub row: Row,
    pub from: Option<u32>,
}

/// What steps that were done came to: their indices and the ids of the rows that are left, both ascending.
#[derive(Drop)]
pub struct Ended {
    pub done: Vec<u32>,
    pub left: Vec<Digest>,
}

impl Ended {
    /// Whether both came to the same.
    pub fn is_same(&self, other: &Ended) -> bool {
        self.done == other.done && self.left == other.left
    }
}

/// Puts both in order.
pub fn in_order(done: Vec<u32>, left: Vec<Digest>) -> Result<Ended, LineFault> {
    let mut done = done;
    let mut left = left;
    done.sort()?;
    left.sort_by(|a, b| a.0.cmp(&b.0))?;
    Ok(Ended { done, left })
}

/// The rows that a step offers whose rows meet so. A body with a fault offers none.
pub fn offers(alloc: Global, step: &LogStep, found: &Found) -> Result<Vec<Row>, LineFault>
    requires { IsClosed (put found.now.bound.items found.now.body) }
{
    if step.taken.len() > MOST_DATA {
        return Err(LineFault::Field);
    }
    let seed = Seed::comm(&step.cont, step.taken.as_slice(), step.repeat);
    let worked = work_body(
        alloc,
        &found.body,
        found.bound.as_slice(),
        &seed,
        &Prices::standard(),
        MOST_COST,
    )?;
    Ok(worked.offers)
}

/// Adds copies of rows that a step offers.
pub fn add_rows(
    alloc: Global,
    all: &mut Vec<Coming>,
    rows: &[Row],
    from: Option<u32>,
) -> Result<(), AllocError> {
    for row in rows {
        let row = row.copy(alloc)?;
        keep(all, Coming { row, from })?;
    }
    Ok(())
}

/// Adds a value.
pub fn keep<T: Drop>(all: &mut Vec<T>, value: T) -> Result<(), AllocError> {
    all.push(value)?;
    Ok(())
}
