// A receive.
ghost use Rattle.std.specs.Prelude.{◌≡◌, true, length, map, All, IfOk};
ghost use Rattle.calculus.specs.Form.{IsClosed};
ghost use Rattle.calculus.specs.Shape.{only};
ghost use Rattle.calculus.specs.Substitution.{renumber};
ghost use Rattle.calculus.specs.Unfolding.{from_on, opened, new_index, sorted_receive, receive_offered};
ghost use Rattle.rho_term.specs.Parts.{part_tree, bind_tree};
ghost use Rattle.value_ops.specs.Answers.{IsOperand};
ghost use Rattle.offered_rows.specs.Binds.{binds_on, HasScope};
ghost use Rattle.offered_rows.specs.Offers.{ComesToRow, IsOffered, receive_tree};

use crate::names::{names_fault, opened_names};
use crate::placed::sorted;
use crate::row::offer_part;
use calculus::{Digest, Kind};
use price_table::{Budget, EvalStop, Priced};
use rho_term::{Op, Part, Term, TermBind, TermPat};
use std::alloc::{AllocError, Global};
use substitution::renumber_body;

/// A receive: its kind, its binds and its body.
#[derive(Clone, Copy)]
pub struct Receive<'a> {
    pub kind: Kind,
    pub binds: &'a Vec<TermBind>,
    pub body: &'a Term,
}

/// What a receive with this id offers on these channels, with what was added up to it. They are evaluated.
///
/// The price of a receive is added, and one for each byte of the row. Then comes NotReadable where a bundle
/// around a channel does not let read, then SameChannel where two channels are congruent, then TooDeep and
/// TooBig for a row beyond the limits. The binds of the row ascend in the codes of their channels, and its
/// body's variables are numbered for that order. `NoMemory` comes for binds of 2^32 variables and more, too.
pub fn offer_receive(
    alloc: Global,
    id: Digest,
    channels: Vec<Term>,
    receive: Receive,
    budget: Budget,
) -> Result<Priced<Op>, EvalStop>
    requires channels { All IsOperand channels.items }
    requires same_number { length channels.items ≡ length receive.binds.now.items }
    requires closed { IsClosed (only (receive_tree receive)) }
    ensures { ComesToRow result budget.entry (receive_offered budget.entry.prices.now id.0 receive.entry.kind
        (map opened channels.items) (map bind_tree receive.entry.binds.now.items) receive.entry.body.now) }
{
    let names = opened_names(alloc, channels)?;
    let fault = names_fault(&names);
    let part = receive_part(alloc, names.names, receive)?;
    offer_part(alloc, id, part, fault, budget.prices.receive(), budget)
}

// A receive whose binds stand on these names, in order. Want of memory is the one error.
fn receive_part(alloc: Global, names: Vec<Term>, receive: Receive) -> Result<Part, AllocError>
    requires names { All IsOperand names.items }
    requires same_number { length names.items ≡ length receive.binds.now.items }
    requires closed { IsClosed (only (receive_tree receive)) }
    ensures part { IfOk result (λ p. part_tree p ≡ sorted_receive receive.entry.kind
        (binds_on names.items (map bind_tree receive.entry.binds.now.items)) receive.entry.body.now) }
    ensures offered { IfOk result IsOffered }
{
    let named = binds_with(alloc, names, receive.binds)?;
    let sorted = sorted(alloc, named)?;
    let body = renumbered(alloc, receive.body, sorted.places.as_slice())?;
    let kind = receive.kind;
    let binds = sorted.binds;
    Ok(Part::Receive { kind, binds, body })
}

// The body with its variables numbered anew. Where the places stand in their old order it is only copied.
fn renumbered(alloc: Global, body: &Term, places: &[u32]) -> Result<Term, AllocError>
    requires { HasScope (length places.now) body.now }
    ensures { IfOk result (λ t. t ≡ renumber (new_index places.now) body.now) }
{
    // What has a height is known to be in normal order.
    let _height = body.height();
    if are_in_order(places) {
        return body.copy(alloc);
    }
    renumber_body(alloc, body, places)
}

// Whether each place is its own number.
fn are_in_order(places: &[u32]) -> bool
    ensures { result ≡ true → places.now ≡ from_on 0 (length places.now) }
{
    for i in 0..places.len() {
        if places[i] as usize != i {
            return false;
        }
    }
    true
}

// These binds on these names.
fn binds_with(
    alloc: Global,
    names: Vec<Term>,
    binds: &Vec<TermBind>,
) -> Result<Vec<TermBind>, AllocError>
    requires { length names.items ≡ length binds.now.items }
    ensures { IfOk result (λ v. map bind_tree v.items ≡ binds_on names.items (map bind_tree binds.now.items)) }
{
    let mut names = names;
    let mut named = Vec::new(alloc);
    for bind in binds {
        let channel = names.remove(0);
        let pats = copy_pats(alloc, &bind.pats)?;
        let rest = bind.rest;
        named.push(TermBind {
            pats,
            rest,
            channel,
        })?;
    }
    Ok(named)
}

// Equal patterns.
fn copy_pats(alloc: Global, pats: &Vec<TermPat>) -> Result<Vec<TermPat>, AllocError>
    ensures { IfOk result (λ v. v.items ≡ pats.now.items) }
{
    let mut copies = Vec::new(alloc);
    for pat in pats {
        copies.push(pat.copy(alloc)?)?;
    }
    Ok(copies)
}
