// A choice of a row for each bind of a receiver.
ghost use Rattle.std.specs.Prelude.{◌≡◌, [], ◌∷◌, map, IfOk, MatchOption};
ghost use Rattle.calculus.specs.Form.{a_bind};
ghost use Rattle.calculus.specs.Steps.{peeks};
ghost use Rattle.rho_term.specs.Parts.{bind_tree};
ghost use Rattle.match_targets.specs.Targets.{Ready};
ghost use Rattle.row_search.specs.Rows.{looked_up};
ghost use Rattle.row_search.specs.Choices.{first_taken, takes, AllBindsReady, Binds, Chooses, Extends, Fails, Joins, PicksOne};

use crate::compare::{is_sent_on, same_channel};
use crate::rows::RowsAtHand;
use calculus::{Digest, Kind};
use rho_term::{Op, Term, TermBind};
use space_row::Row;
use spatial_match::match_bind;
use std::alloc::{AllocError, Global};

/// What is chosen for a bind: the id of a send, whether it is persistent, and what the bind binds of it.
#[derive(Drop)]
pub struct Chosen {
    pub id: Digest,
    pub persistent: bool,
    pub bound: Vec<Term>,
}

/// What is chosen for binds: the ids of the sends, all that is bound, and the ids of the sends that leave.
#[derive(Drop)]
pub struct Joined {
    pub taken: Vec<Digest>,
    pub bound: Vec<Term>,
    pub gone: Vec<Digest>,
}

// What a bind takes of a row, where that is a send on its channel that it matches.
fn take_send(alloc: Global, bind: &TermBind, row: &Row) -> Result<Option<Chosen>, AllocError>
    requires { Ready a_bind (bind_tree bind.now) }
    ensures { IfOk result (λ o. Binds row.now (takes bind.now row.now) o) }
{
    match row.op() {
        Op::Consume { .. } => Ok(None),
        Op::Produce {
            id,
            channel,
            args,
            persistent,
        } => {
            if !same_channel(&bind.channel, channel) {
                return Ok(None);
            }
            match match_bind(alloc, bind, args)? {
                None => Ok(None),
                Some(bound) => Ok(Some(Chosen {
                    id: *id,
                    persistent: *persistent,
                    bound,
                })),
            }
        }
    }
}

// What a bind takes of the row with this id.
fn take_row<S: RowsAtHand>(
    alloc: Global,
    bind: &TermBind,
    store: &S,
    id: &Digest,
) -> Result<Option<Chosen>, AllocError>
    requires { Ready a_bind (bind_tree bind.now) }
    ensures { IfOk result (λ o. Chooses (first_taken bind.now (looked_up (S.rows store.now) (id.now.0 ∷ []))) o) }
{
    match store.row(id) {
        None => Ok(None),
        Some(row) => take_send(alloc, bind, row),
    }
}

// The first of the rows with these ids that a bind takes.
fn find_send<S: RowsAtHand>(
    alloc: Global,
    bind: &TermBind,
    store: &S,
    ids: &[Digest],
) -> Result<Option<Chosen>, AllocError>
    requires { Ready a_bind (bind_tree bind.now) }
    ensures { IfOk result (λ o. Chooses (first_taken bind.now (looked_up (S.rows store.now) (map (λ d. d.0) ids.now))) o) }
{
    for id in ids {
        let found = take_row(alloc, bind, store, id)?;
        if found.is_some() {
            return Ok(found);
        }
    }
    Ok(None)
}

// What a bind takes: on the operation's channel the operation or nothing, elsewhere one of the rows at
// hand.
fn choose<S: RowsAtHand>(
    alloc: Global,
    bind: &TermBind,
    store: &S,
    op: &Row,
) -> Result<Option<Chosen>, AllocError>
    requires { Ready a_bind (bind_tree bind.now) }
    ensures { IfOk result (PicksOne (S.rows store.now) op.now bind.now) }
{
    if is_sent_on(&bind.channel, op) {
        take_send(alloc, bind, op)
    } else {
        let ids = store.sends_on(alloc, &bind.channel)?;
        find_send(alloc, bind, store, ids)
    }
}

// Adds a choice to those that are made.
pub(crate) fn add_choice(
    joined: &mut Joined,
    chosen: Chosen,
    peeking: bool,
) -> Result<(), AllocError>
    ensures { IfOk result (λ _. Extends joined.old chosen peeking joined.new) }
{
    joined.taken.push(chosen.id)?;
    if !peeking && !chosen.persistent {
        joined.gone.push(chosen.id)?;
    }
    let mut bound = chosen.bound;
    joined.bound.append(&mut bound)?;
    Ok(())
}

// Whether a receiver leaves its data where they are.
pub(crate) fn peeks(kind: Kind) -> bool
    ensures { result ≡ peeks kind }
{
    match kind {
        Kind::Peek => true,
        _ => false,
    }
}

/// A choice for each of these binds; it ends at the first bind that takes nothing.
pub(crate) fn join<S: RowsAtHand>(
    alloc: Global,
    kind: Kind,
    binds: &[TermBind],
    store: &S,
    op: &Row,
) -> Result<Option<Joined>, AllocError>
    requires { AllBindsReady binds.now }
    ensures { IfOk result (λ o. MatchOption o (Fails (S.rows store.now) op.now binds.now)
        (Joins (S.rows store.now) op.now kind binds.now)) }
{
    let mut joined = Joined {
        taken: Vec::new(alloc),
        bound: Vec::new(alloc),
        gone: Vec::new(alloc),
    };
    let peeking = peeks(kind);
    for bind in binds {
        match choose(alloc, bind, store, op)? {
            None => return Ok(None),
            Some(chosen) => add_choice(&mut joined, chosen, peeking)?,
        }
    }
    Ok(Some(joined))
}
