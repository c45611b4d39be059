ghost use Rattle.std.specs.Prelude.{◌≡◌, List, true, map, IfOk, MatchOption};
ghost use Rattle.calculus.specs.Log.{Step};
ghost use Rattle.calculus.specs.Rows.{Row as AnyRow};
ghost use Rattle.calculus.specs.Steps.{differ, Bag};
ghost use Rattle.events.specs.Events.{first_ids};
ghost use Rattle.events.specs.Found.{Among};
ghost use Rattle.least_step.specs.Filed.{AreFiled, IsAwaited};
ghost use Rattle.least_step.specs.Least.{AllowsNone, IsLeast, HasRows, NothingIsUsedUp};
ghost use Rattle.least_step.specs.Meeting.{IsLeastMeeting, IsLeastWith, MeetsNone, NoneMeets};
ghost use Rattle.least_step.specs.Orders.{referred, AreAscending};

use crate::choices::least_data;
use crate::rows::{built_in_rows, by_id};
use crate::sends::{Sends, file_sends};
use calculus::Digest;
use rho_term::Op;
use space_row::Row;
use std::alloc::{AllocError, Global};

/// A step, but for its repeat number: the id of its receiver, and those of its data in the order of the
/// receiver's binds.
#[derive(Debug, Drop, PartialEq, Eq)]
pub struct LeastStep {
    pub cont: Digest,
    pub taken: Vec<Digest>,
}

// A receiver with the least of the filed sends for each of its binds.
fn meet_least(
    alloc: Global,
    receiver: &Row,
    sends: &Sends<'_>,
) -> Result<Option<LeastStep>, AllocError>
    requires { IsAwaited receiver.now sends.now.entries }
    ensures { (rows : List AnyRow) → AreAscending rows → Among receiver.now rows → AreFiled rows sends.now.entries →
        IfOk result (λ o. MatchOption o (MeetsNone rows receiver.now) (IsLeastWith rows receiver.now)) }
{
    match receiver.op() {
        Op::Produce { .. } => Ok(None),
        Op::Consume { id, binds, .. } => match least_data(alloc, binds, sends)? {
            None => Ok(None),
            Some(taken) => Ok(Some(LeastStep { cont: *id, taken })),
        },
    }
}

// The least meeting of these rows, whose ids ascend.
fn least_meeting(alloc: Global, rows: &[&Row]) -> Result<Option<LeastStep>, AllocError>
    ensures { AreAscending (map referred rows.now) →
        IfOk result (λ o. MatchOption o (NoneMeets (map referred rows.now)) (IsLeastMeeting (map referred rows.now))) }
{
    let sends = file_sends(alloc, rows)?;
    for row in rows {
        let found = meet_least(alloc, *row, &sends)?;
        if found.is_some() {
            return Ok(found);
        }
    }
    Ok(None)
}

/// The step with the least list of ids, its receiver's first and then those of its data, that is allowed
/// among these rows and the built-in receivers, and None exactly where no step is allowed.
///
/// It is so in each bag of these rows, after any steps that used up none of them, where no two of the ids
/// of these rows and of the built-in receivers are equal. Want of memory is the one error.
pub fn first_reducible(alloc: Global, rows: &[Row]) -> Result<Option<LeastStep>, AllocError>
    ensures { (b : Bag) (made : List Step) → HasRows b rows.now → differ (first_ids rows.now) ≡ true → NothingIsUsedUp b made
        → IfOk result (λ o. MatchOption o (AllowsNone b made) (IsLeast b made)) }
{
    let built_ins = built_in_rows(alloc)?;
    let all = by_id(alloc, rows, built_ins.as_slice())?;
    least_meeting(alloc, all.as_slice())
}
