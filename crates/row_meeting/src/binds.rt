// Binds and a send for each of them.
ghost use Rattle.std.specs.Prelude.{◌≡◌, IfOk, MatchOption};
ghost use Rattle.calculus.specs.Congruence.{congruent};
ghost use Rattle.calculus.specs.Form.{a_bind, term};
ghost use Rattle.calculus.specs.Steps.{peeks, stays};
ghost use Rattle.rho_term.specs.Parts.{bind_tree};
ghost use Rattle.match_targets.specs.Targets.{Ready};
ghost use Rattle.row_search.specs.Choices.{AllBindsReady};
ghost use Rattle.row_search.specs.Rows.{is_persistent};
ghost use Rattle.row_meeting.specs.Taking.{Adds, AreNotTaken, Begins, Binds, Gathers};

use calculus::{Digest, Kind};
use found_rows::Found;
use rho_term::{Op, Term, TermBind};
use space_row::Row;
use spatial_match::match_bind;
use std::alloc::{AllocError, Global};
use term_order::cmp_terms;

// Whether two channels are congruent.
fn same_channel(a: &Term, b: &Term) -> bool
    requires a { Ready term a.now }
    requires b { Ready term b.now }
    ensures { result ≡ congruent a.now b.now }
{
    cmp_terms(a, b).is_eq()
}

// What a bind binds of a row, where that is a send on its channel that it matches.
fn bind_send(alloc: Global, bind: &TermBind, row: &Row) -> Result<Option<Vec<Term>>, AllocError>
    requires { Ready a_bind (bind_tree bind.now) }
    ensures { IfOk result (λ o. Binds bind.now row.now o) }
{
    match row.op() {
        Op::Consume { .. } => Ok(None),
        Op::Produce { channel, args, .. } => {
            if !same_channel(&bind.channel, channel) {
                return Ok(None);
            }
            match_bind(alloc, bind, args)
        }
    }
}

// Whether a row is a persistent send.
fn is_persistent(row: &Row) -> bool
    ensures { result ≡ is_persistent row.now }
{
    match row.op() {
        Op::Produce { persistent, .. } => *persistent,
        Op::Consume { .. } => false,
    }
}

// Whether a receiver leaves its data where they are.
fn peeks(kind: Kind) -> bool
    ensures { result ≡ peeks kind }
{
    match kind {
        Kind::Peek => true,
        _ => false,
    }
}

// Whether a receiver stays after a step.
fn stays(kind: Kind) -> bool
    ensures { result ≡ stays kind }
{
    match kind {
        Kind::Persistent => true,
        _ => false,
    }
}

// What a receiver with this id, kind and body comes to before its first send.
fn begin(alloc: Global, id: Digest, kind: Kind, body: &Term) -> Result<Found, AllocError>
    ensures { IfOk result (Begins id kind body.now) }
{
    let lasting = stays(kind);
    let mut gone = Vec::new(alloc);
    if !lasting {
        gone.push(id)?;
    }
    Ok(Found {
        cont: id,
        taken: Vec::new(alloc),
        bound: Vec::new(alloc),
        body: body.copy(alloc)?,
        gone,
        lasting,
    })
}

// Adds a send, of which this is bound.
fn add_send(
    found: &mut Found,
    send: &Row,
    bound: Vec<Term>,
    peeking: bool,
) -> Result<(), AllocError>
    ensures { IfOk result (λ _. Adds found.old send.now bound.items peeking found.new) }
{
    let id = send.id();
    found.taken.push(id)?;
    if !peeking && !is_persistent(send) {
        found.gone.push(id)?;
        found.lasting = false;
    }
    let mut bound = bound;
    found.bound.append(&mut bound)?;
    Ok(())
}

/// What a receiver with this id, kind and body comes to with these sends, one for each of its binds. None
/// where one of them takes nothing of its send, or there are more or fewer sends.
pub(crate) fn take_sends(
    alloc: Global,
    id: Digest,
    kind: Kind,
    binds: &[TermBind],
    body: &Term,
    sends: &[Row],
) -> Result<Option<Found>, AllocError>
    requires { AllBindsReady binds.now }
    ensures { IfOk result (λ o. MatchOption o (AreNotTaken binds.now sends.now) (Gathers id kind body.now binds.now sends.now)) }
{
    if binds.len() != sends.len() {
        return Ok(None);
    }
    let mut found = begin(alloc, id, kind, body)?;
    let peeking = peeks(kind);
    for (i, bind) in binds.iter().enumerate() {
        let send = &sends[i];
        match bind_send(alloc, bind, send)? {
            None => return Ok(None),
            Some(bound) => add_send(&mut found, send, bound, peeking)?,
        }
    }
    Ok(Some(found))
}
