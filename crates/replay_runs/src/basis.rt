// What a log is replayed from.
use calculus::Digest;
use price_table::Prices;
use rho_term::Term;
use space_row::Row;

/// What a log is replayed from: the rows of a state, their root, a process, the digest of its source, and prices.
#[derive(Drop)]
pub(crate) struct Basis<'a> {
    pub(crate) base: &'a [Row],
    pub(crate) base_root: &'a Digest,
    pub(crate) term: &'a Term,
    pub(crate) source: &'a Digest,
    pub(crate) prices: &'a Prices,
}
