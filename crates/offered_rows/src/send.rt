// A send.
ghost use Rattle.std.specs.Prelude.{◌≡◌, cond};
ghost use Rattle.calculus.specs.Outcome.{fails};
ghost use Rattle.calculus.specs.Rows.{Row};
ghost use Rattle.calculus.specs.Unfolding.{opened, row_limits, send_offered};
ghost use Rattle.calculus.specs.declared.fault.FaultKind.TheVariants as faults;
ghost use Rattle.offered_rows.specs.Offers.{ComesToRow, tested};

use crate::opened::opened_channel;
use crate::row::offer_part;
use calculus::{Digest, FaultKind};
use price_table::{Budget, EvalStop, Priced};
use rho_term::{Op, Part, Term};
use std::alloc::Global;

/// What a send with this id offers, with what was added up to it. Its channel and its arguments are
/// evaluated.
///
/// The price of a send is added, and one for each byte of the row. Then comes NotWritable where a bundle
/// around the channel does not let write, then TooDeep and TooBig for a row beyond the limits.
pub fn offer_send(
    alloc: Global,
    id: Digest,
    persistent: bool,
    channel: Term,
    args: Vec<Term>,
    budget: Budget,
) -> Result<Priced<Op>, EvalStop>
    ensures { ComesToRow result budget.entry (send_offered budget.entry.prices.now id.0 persistent (opened channel) args.items) }
{
    let opened = opened_channel(channel);
    let fault = channel_fault(opened.writable);
    let channel = opened.name;
    let part = Part::Send {
        channel,
        args,
        persistent,
    };
    offer_part(alloc, id, part, fault, budget.prices.send(), budget)
}

// What is wrong with the channel of a send.
fn channel_fault(writable: bool) -> Option<FaultKind>
    ensures { (r : Row) → tested result r ≡ cond writable (row_limits r) (fails faults.NotWritable) }
{
    if writable {
        return None;
    }
    Some(FaultKind::NotWritable)
}
