// Where the rows at hand stand.
ghost use Rattle.std.specs.Prelude.{◌≡◌, List, map, IfOk};
ghost use Rattle.std.specs.Option.{option_copied};
ghost use Rattle.calculus.specs.Form.{term};
ghost use Rattle.calculus.specs.Rows.{Row};
ghost use Rattle.match_targets.specs.Targets.{Ready};
ghost use Rattle.row_search.specs.Rows.{row_with, HasReceivers, HasSends};

use calculus::Digest;
use rho_term::Term;
use space_row::Row;
use std::alloc::{AllocError, Global};

/// The rows that an operation may meet, found by their ids, and their ids by channels.
///
/// A table that files ids by channel gives those of one place; what else stands there does no harm, be it
/// the id of another row or of none.
pub trait RowsAtHand {
    ghost rows: { Self → List Row };

    /// The row with this id.
    fn row(&self, id: &Digest) -> Option<&Row>
        ensures { option_copied result ≡ row_with id.now.0 (rows self.now) };

    /// Ids, those of all sends on this channel among them. Want of memory is the one error.
    fn sends_on(&self, alloc: Global, channel: &Term) -> Result<&[Digest], AllocError>
        requires { Ready term channel.now }
        ensures { IfOk result (λ ids. HasSends (rows self.now) channel.now (map (λ d. d.0) ids.now)) };

    /// Ids, those of all receives with a bind on this channel among them. Want of memory is the one error.
    fn receivers_on(&self, alloc: Global, channel: &Term) -> Result<&[Digest], AllocError>
        requires { Ready term channel.now }
        ensures { IfOk result (λ ids. HasReceivers (rows self.now) channel.now (map (λ d. d.0) ids.now)) };
}
