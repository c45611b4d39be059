// The least datum for each bind of a receiver.
ghost use Rattle.std.specs.Prelude.{◌≡◌, List, map, is_some, All, IfOk, MatchOption};
ghost use Rattle.calculus.specs.Form.{a_bind};
ghost use Rattle.calculus.specs.Rows.{Row as AnyRow};
ghost use Rattle.rho_term.specs.Parts.{bind_tree};
ghost use Rattle.match_targets.specs.Targets.{Ready};
ghost use Rattle.row_search.specs.Choices.{takes, AllBindsReady};
ghost use Rattle.least_step.specs.Orders.{referred, AreAscending};
ghost use Rattle.least_step.specs.Filed.{AreFiled, HasPlace};
ghost use Rattle.least_step.specs.Choosing.{AreLeastTaken, IsLeastTaken, OneTakesNone, TakesNone};

use crate::sends::Sends;
use calculus::Digest;
use rho_term::{Op, TermBind};
use space_row::Row;
use spatial_match::match_bind;
use std::alloc::{AllocError, Global};
use term_encoder::encode_term;
use term_order::cmp_terms;

// Whether a row is a send on the channel of a bind that matches it.
fn does_take(alloc: Global, bind: &TermBind, row: &Row) -> Result<bool, AllocError>
    requires { Ready a_bind (bind_tree bind.now) }
    ensures { IfOk result (λ b. b ≡ is_some (takes bind.now row.now)) }
{
    match row.op() {
        Op::Consume { .. } => Ok(false),
        Op::Produce { channel, args, .. } => {
            if !cmp_terms(&bind.channel, channel).is_eq() {
                return Ok(false);
            }
            Ok(match_bind(alloc, bind, args)?.is_some())
        }
    }
}

// The id of the first of these rows that a bind takes.
fn first_taken(alloc: Global, bind: &TermBind, rows: &[&Row]) -> Result<Option<Digest>, AllocError>
    requires { Ready a_bind (bind_tree bind.now) }
    ensures { AreAscending (map referred rows.now) →
        IfOk result (λ o. MatchOption o (TakesNone (map referred rows.now) bind.now) (IsLeastTaken (map referred rows.now) bind.now)) }
{
    for row in rows {
        if does_take(alloc, bind, *row)? {
            return Ok(Some(row.id()));
        }
    }
    Ok(None)
}

// The least id of the filed sends that a bind takes.
fn least_taken(
    alloc: Global,
    bind: &TermBind,
    sends: &Sends<'_>,
) -> Result<Option<Digest>, AllocError>
    requires ready { Ready a_bind (bind_tree bind.now) }
    requires place { HasPlace bind.now.channel sends.now.entries }
    ensures { (rows : List AnyRow) → AreAscending rows → AreFiled rows sends.now.entries →
        IfOk result (λ o. MatchOption o (TakesNone rows bind.now) (IsLeastTaken rows bind.now)) }
{
    let code = encode_term(alloc, &bind.channel)?;
    match sends.get(code.as_slice()) {
        None => Ok(None),
        Some(rows) => first_taken(alloc, bind, rows.as_slice()),
    }
}

// For each of these binds the least id of the filed sends that it takes; None where one takes none.
pub(crate) fn least_data(
    alloc: Global,
    binds: &[TermBind],
    sends: &Sends<'_>,
) -> Result<Option<Vec<Digest>>, AllocError>
    requires ready { AllBindsReady binds.now }
    requires places { All (λ b. HasPlace b.channel sends.now.entries) binds.now }
    ensures { (rows : List AnyRow) → AreAscending rows → AreFiled rows sends.now.entries →
        IfOk result (λ o. MatchOption o (OneTakesNone rows binds.now) (λ v. AreLeastTaken rows binds.now v.items)) }
{
    let mut taken = Vec::new(alloc);
    for bind in binds {
        match least_taken(alloc, bind, sends)? {
            None => return Ok(None),
            Some(id) => taken.push(id)?,
        }
    }
    Ok(Some(taken))
}
