// What is shown of the shards in hand to a search.
ghost use Rattle.std.specs.Prelude.{◌≡◌, not, filter, option_copied};
ghost use Rattle.row_search.specs.Rows.{row_with};
ghost use Rattle.rspace_table.specs.Hands.{firsts, is_receive, is_send, receives_of, rows_for, AreInPlace};

use crate::held::Held;
use calculus::Digest;
use rho_term::{Op, Term};
use row_search::RowsAtHand;
use row_table::RowTable;
use space_row::Row;
use std::alloc::{AllocError, Global};

/// The sends in hand, and the receives of one table.
#[derive(Drop)]
pub(crate) struct Hand<'a> {
    pub held: &'a Held,
    pub heard: &'a RowTable,
    ghost placed: { AreInPlace held.now },
}

impl<'a> RowsAtHand for Hand<'a> {
    ghost rows = { λ h. rows_for h.heard.now h.held.now };

    fn row(&self, id: &Digest) -> Option<&Row> {
        match receive_with(self.heard, id) {
            Some(row) => Some(row),
            None => self.held.send(id),
        }
    }

    fn sends_on(&self, alloc: Global, channel: &Term) -> Result<&[Digest], AllocError> {
        self.held.sends_on(alloc, channel)
    }

    fn receivers_on(&self, alloc: Global, channel: &Term) -> Result<&[Digest], AllocError> {
        self.heard.receivers_on(alloc, channel)
    }
}

// Whether a row is a send.
fn is_send(row: &Row) -> bool
    ensures send { result ≡ is_send row.now }
    ensures receive { is_receive row.now ≡ not result }
{
    match row.op() {
        Op::Produce { .. } => true,
        Op::Consume { .. } => false,
    }
}

// The receive with this id.
fn receive_with<'a>(table: &'a RowTable, id: &Digest) -> Option<&'a Row>
    ensures { option_copied result ≡ row_with id.now.0 (receives_of table.now) }
{
    match table.row(id) {
        Some(row) => { if is_send(row) { None } else { Some(row) } }
        None => None,
    }
}

/// The send with this id.
pub(crate) fn send_with<'a>(table: &'a RowTable, id: &Digest) -> Option<&'a Row>
    ensures { option_copied result ≡ row_with id.now.0 (filter is_send (firsts table.now)) }
{
    match table.row(id) {
        Some(row) => { if is_send(row) { Some(row) } else { None } }
        None => None,
    }
}
