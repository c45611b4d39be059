// The search of an operation among the rows at hand.
ghost use Rattle.std.specs.Prelude.{◌≡◌, [], ◌∷◌, All, IfOk, MatchOption};
ghost use Rattle.calculus.specs.Form.{term};
ghost use Rattle.calculus.specs.Steps.{stays};
ghost use Rattle.events.specs.Found.{Among};
ghost use Rattle.match_targets.specs.Targets.{Ready};
ghost use Rattle.row_search.specs.Rows.{looked_up};
ghost use Rattle.row_search.specs.Meetings.{rows_with, Finishes, IsFound, IsSendOn, MayMeet, MeetsNone, MeetsNothing};

use crate::choices::{Joined, join};
use crate::compare::is_heard_on;
use crate::rows::RowsAtHand;
use calculus::{Digest, Kind};
use found_rows::Found;
use rho_term::{Op, Term};
use space_row::Row;
use std::alloc::{AllocError, Global};

/// The rows at hand that meet, the operation among them, and None exactly where no rows do.
///
/// The rows at hand are all that the operation may meet, built-in receivers among them, without the
/// operation itself. Want of memory is the one error.
pub fn first_step<S: RowsAtHand>(
    alloc: Global,
    store: &S,
    op: &Row,
) -> Result<Option<Found>, AllocError>
    ensures { IfOk result (λ o. MatchOption o (MeetsNothing (S.rows store.now) op.now) (IsFound (S.rows store.now) op.now)) }
{
    match op.op() {
        Op::Produce { channel, .. } => find_receiver(alloc, store, op, channel),
        Op::Consume { .. } => meet_receiver(alloc, op, store, op),
    }
}

// The first receiver at hand that meets the operation, which is a send on this channel, and other rows.
fn find_receiver<S: RowsAtHand>(
    alloc: Global,
    store: &S,
    op: &Row,
    channel: &Term,
) -> Result<Option<Found>, AllocError>
    requires send { IsSendOn channel.now op.now }
    requires channel { Ready term channel.now }
    ensures { IfOk result (λ o. MatchOption o (MeetsNothing (S.rows store.now) op.now) (IsFound (S.rows store.now) op.now)) }
{
    let receivers = store.receivers_on(alloc, channel)?;
    for id in receivers {
        let found = meet_row(alloc, id, store, op, channel)?;
        if found.is_some() {
            return Ok(found);
        }
    }
    Ok(None)
}

// The row with this id, where it meets the operation, which is a send on this channel, and other rows.
fn meet_row<S: RowsAtHand>(
    alloc: Global,
    id: &Digest,
    store: &S,
    op: &Row,
    channel: &Term,
) -> Result<Option<Found>, AllocError>
    requires send { IsSendOn channel.now op.now }
    requires channel { Ready term channel.now }
    ensures { IfOk result (λ o. MatchOption o (All (MeetsNone (S.rows store.now) op.now)
        (looked_up (S.rows store.now) (id.now.0 ∷ []))) (IsFound (S.rows store.now) op.now)) }
{
    match store.row(id) {
        None => Ok(None),
        Some(receiver) => meet_heard(alloc, receiver, store, op, channel),
    }
}

// A receiver at hand and the first sends that its binds take, the operation among them, which is a send
// on this channel.
fn meet_heard<S: RowsAtHand>(
    alloc: Global,
    receiver: &Row,
    store: &S,
    op: &Row,
    channel: &Term,
) -> Result<Option<Found>, AllocError>
    requires send { IsSendOn channel.now op.now }
    requires channel { Ready term channel.now }
    requires at_hand { Among receiver.now (S.rows store.now) }
    ensures { IfOk result (λ o. MatchOption o (MeetsNone (S.rows store.now) op.now receiver.now) (IsFound (S.rows store.now) op.now)) }
{
    if !is_heard_on(channel, receiver) {
        return Ok(None);
    }
    meet_receiver(alloc, receiver, store, op)
}

// A receiver and the first sends that its binds take, where it takes part itself or hears the operation.
fn meet_receiver<S: RowsAtHand>(
    alloc: Global,
    receiver: &Row,
    store: &S,
    op: &Row,
) -> Result<Option<Found>, AllocError>
    requires may { MayMeet receiver.now op.now }
    requires at_hand { Among receiver.now (rows_with (S.rows store.now) op.now) }
    ensures { IfOk result (λ o. MatchOption o (MeetsNone (S.rows store.now) op.now receiver.now) (IsFound (S.rows store.now) op.now)) }
{
    match receiver.op() {
        Op::Produce { .. } => Ok(None),
        Op::Consume {
            id,
            kind,
            binds,
            body,
        } => match join(alloc, *kind, binds, store, op)? {
            None => Ok(None),
            Some(joined) => Ok(Some(finish(alloc, *id, *kind, body, joined)?)),
        },
    }
}

// Whether a receiver stays after a step.
fn stays(kind: Kind) -> bool
    ensures { result ≡ stays kind }
{
    match kind {
        Kind::Persistent => true,
        _ => false,
    }
}

// What is found of a receiver with this id, kind and body and of these choices for its binds.
pub(crate) fn finish(
    alloc: Global,
    id: Digest,
    kind: Kind,
    body: &Term,
    joined: Joined,
) -> Result<Found, AllocError>
    ensures { IfOk result (Finishes id kind body.now joined) }
{
    let Joined { taken, bound, gone } = joined;
    let staying = stays(kind);
    let lasting = staying && gone.is_empty();
    let mut leaving = Vec::new(alloc);
    if !staying {
        leaving.push(id)?;
    }
    let mut others = gone;
    leaving.append(&mut others)?;
    Ok(Found {
        cont: id,
        taken,
        bound,
        body: body.copy(alloc)?,
        gone: leaving,
        lasting,
    })
}
