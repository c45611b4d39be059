//! The rows that sources offer.
ghost use Rattle.std.specs.Prelude.{IfOk};
ghost use Rattle.calculus.specs.Form.{IsClosed};

use calculus::Digest;
use name_seed::{Seed, bytes_digest};
use price_table::Prices;
use rho_term::Term;
use sources::read_source;
use space_row::Row;
use std::alloc::Global;
use table_lines::{LineFault, unescape};
use unfold::{Worked, work_source};

/// What a source of a line, and a body of a step, may cost at most.
pub const MOST_COST: u64 = 1_000_000;

/// The term of a source.
pub fn read_term(alloc: Global, source: &[u8]) -> Result<Term, LineFault>
    ensures { IfOk result IsClosed }
{
    match read_source(alloc, source) {
        Ok(term) => Ok(term),
        Err(_) => Err(LineFault::Field),
    }
}

/// The rows that a source with escapes offers to a state with this root, where it has no fault.
pub fn read_rows(alloc: Global, base: &Digest, source: &str) -> Result<Vec<Row>, LineFault> {
    let source = unescape(alloc, source)?;
    let term = read_term(alloc, source.as_slice())?;
    let seed = Seed::start(base, &bytes_digest(source.as_slice()));
    offers(work_source(alloc, &term, &seed, &Prices::standard(), MOST_COST)?)
}

fn offers(worked: Worked) -> Result<Vec<Row>, LineFault> {
    if worked.fault.is_some() || worked.price > MOST_COST {
        return Err(LineFault::Field);
    }
    Ok(worked.offers)
}
