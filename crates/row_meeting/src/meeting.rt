// A receiver and given sends.
ghost use Rattle.std.specs.Prelude.{◌≡◌, ◌∷◌, None, IfOk, MatchOption};
ghost use Rattle.events.specs.Found.{met};
ghost use Rattle.row_meeting.specs.Meeting.{IsMeeting};

use crate::binds::take_sends;
use found_rows::Found;
use rho_term::Op;
use space_row::Row;
use std::alloc::{AllocError, Global};

/// What a receiver and these sends come to, one send for each of its binds in their order, and None exactly
/// where they do not meet. Want of memory is the one error.
pub fn meet_rows(alloc: Global, receiver: &Row, sends: &[Row]) -> Result<Option<Found>, AllocError>
    ensures { IfOk result (λ o. MatchOption o (met (receiver.now ∷ sends.now) ≡ None) (IsMeeting receiver.now sends.now)) }
{
    match receiver.op() {
        Op::Produce { .. } => Ok(None),
        Op::Consume {
            id,
            kind,
            binds,
            body,
        } => take_sends(alloc, *id, *kind, binds, body, sends),
    }
}
