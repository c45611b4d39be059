// The thin parts of a pattern, each against one part of a process.
ghost use Rattle.std.specs.Prelude.{◌≡◌, false, map, IfOk};
ghost use Rattle.calculus.specs.Form.{term};
ghost use Rattle.calculus.specs.Matching.{first_items_match};
ghost use Rattle.calculus.specs.Operators.{of_list};
ghost use Rattle.calculus.specs.Shape.{label_of, leaf, many, one, only, two};
ghost use Rattle.calculus.specs.Tree.{bundle, list_pattern, map_pattern, par, rest, row, send, set_pattern, tuple};
ghost use Rattle.calculus.specs.Variables.{is_wide};
ghost use Rattle.rho_term.specs.Normal.{IsOrdered};
ghost use Rattle.rho_term.specs.Parts.{pair_tree, part_tree, pat_part_tree};
ghost use Rattle.match_targets.specs.Targets.{AllReady, Ready};
ghost use Rattle.spatial_match.specs.Given.{AllTries, IsCompared, Tries};
ghost use Rattle.match_targets.specs.Found.{IsFirst};
ghost use Rattle.spatial_match.specs.Found.{found, tried_pats};

use crate::members::{SetSearch, find_members};
use crate::pairs::{MapSearch, find_pairs};
use crate::parts::find_whole;
use calculus::{Rights, TermRest};
use match_targets::{found_if, is_of_kind, joined, rest_items, same_closed, same_ground};
use rho_term::{Part, PatPart, Term, TermPat};
use std::alloc::{AllocError, Global};

#[cycle(find)]
pub(crate) fn find_part(
    alloc: Global,
    pat: &PatPart,
    target: &Part,
) -> Result<Option<Vec<Term>>, AllocError>
    requires thin { is_wide (label_of (pat_part_tree pat.now)) ≡ false }
    requires tries { Tries (pat_part_tree pat.now) }
    requires own_order { IsOrdered (pat_part_tree pat.now) }
    requires ready { Ready term (only (part_tree target.now)) }
    requires order { IsOrdered (part_tree target.now) }
    ensures { IfOk result (λ o. IsFirst (found (pat_part_tree pat.now) (part_tree target.now)) o) }
{
    match pat {
        PatPart::Simple(kind) => Ok(found_if(alloc, is_of_kind(*kind, target))),
        PatPart::Ground(value) => Ok(found_if(alloc, same_ground(value, target))),
        PatPart::Closed(form) => find_closed(alloc, form, target),
        PatPart::List(pats, rest) => find_list(alloc, pats, *rest, target),
        PatPart::Tuple(pats) => find_tuple(alloc, pats, target),
        PatPart::Set(pats, rest) => find_set(alloc, pats, *rest, target),
        PatPart::Map(pats, rest) => find_map(alloc, pats, *rest, target),
        PatPart::Send {
            channel,
            args,
            persistent,
        } => find_send(alloc, channel, args, *persistent, target),
        PatPart::Bundle { rights, body } => find_bundle(alloc, *rights, body, target),
        _ => Ok(None),
    }
}

// A closed form takes what is congruent to it.
fn find_closed(alloc: Global, form: &Part, target: &Part) -> Result<Option<Vec<Term>>, AllocError>
    requires tries { Tries (part_tree form.now) }
    requires own_order { IsOrdered (part_tree form.now) }
    requires ready { Ready term (only (part_tree target.now)) }
    requires order { IsOrdered (part_tree target.now) }
    ensures { IfOk result (λ o. IsFirst (found (part_tree form.now) (part_tree target.now)) o) }
{
    know_form(form);
    let same = same_closed(alloc, form, target)?;
    Ok(found_if(alloc, same))
}

// A form of a pattern that holds processes is compared.
fn know_form(form: &Part)
    ensures { Tries (part_tree form.now) → IsCompared (part_tree form.now) }
{
    match form {
        Part::Tuple(members) => know_members(members),
        Part::Send { channel, .. } => know_term(channel),
        Part::Bundle { body, .. } => know_term(body),
        _ => {}
    }
}

fn know_members(members: &[Term])
    ensures { Tries (many tuple members.now) → ⊥ }
{
    if members.is_empty() {
        return;
    }
    know_term(&members[0]);
}

fn know_term(term: &Term)
    ensures { label_of term.now ≡ par }
{
    let _parts = term.parts();
}

#[cycle(find)]
fn find_list(
    alloc: Global,
    pats: &[TermPat],
    remainder: TermRest,
    target: &Part,
) -> Result<Option<Vec<Term>>, AllocError>
    requires tries { AllTries pats.now }
    requires ready { Ready term (only (part_tree target.now)) }
    ensures { IfOk result (λ o. IsFirst (found (two list_pattern (many row pats.now) (leaf (rest remainder))) (part_tree target.now)) o) }
{
    match target {
        Part::List(terms) => find_items(alloc, pats, remainder, terms),
        _ => Ok(None),
    }
}

#[cycle(find)]
fn find_tuple(
    alloc: Global,
    pats: &[TermPat],
    target: &Part,
) -> Result<Option<Vec<Term>>, AllocError>
    requires tries { AllTries pats.now }
    requires ready { Ready term (only (part_tree target.now)) }
    ensures { IfOk result (λ o. IsFirst (found (many tuple pats.now) (part_tree target.now)) o) }
{
    match target {
        Part::Tuple(terms) => find_items(alloc, pats, TermRest::No, terms),
        _ => Ok(None),
    }
}

#[cycle(find)]
fn find_set(
    alloc: Global,
    pats: &[TermPat],
    remainder: TermRest,
    target: &Part,
) -> Result<Option<Vec<Term>>, AllocError>
    requires tries { AllTries pats.now }
    requires ready { Ready term (only (part_tree target.now)) }
    requires order { IsOrdered (part_tree target.now) }
    ensures { IfOk result (λ o. IsFirst (found (two set_pattern (many row pats.now) (leaf (rest remainder))) (part_tree target.now)) o) }
{
    let none: [usize; 0] = [];
    match target {
        Part::Set(terms) => {
            let rest = remainder;
            let terms = terms.as_slice();
            let search = SetSearch { pats, rest, terms };
            find_members(alloc, search, 0, &none)
        }
        _ => Ok(None),
    }
}

#[cycle(find)]
fn find_map(
    alloc: Global,
    pats: &[(TermPat, TermPat)],
    remainder: TermRest,
    target: &Part,
) -> Result<Option<Vec<Term>>, AllocError>
    requires tries { AllTries (map pair_tree pats.now) }
    requires ready { Ready term (only (part_tree target.now)) }
    requires order { IsOrdered (part_tree target.now) }
    ensures { IfOk result (λ o. IsFirst (found (two map_pattern (many row (map pair_tree pats.now))
        (leaf (rest remainder))) (part_tree target.now)) o) }
{
    let none: [usize; 0] = [];
    match target {
        Part::Map(pairs) => {
            let rest = remainder;
            let pairs = pairs.as_slice();
            let search = MapSearch { pats, rest, pairs };
            find_pairs(alloc, search, 0, &none)
        }
        _ => Ok(None),
    }
}

#[cycle(find)]
fn find_send(
    alloc: Global,
    channel: &TermPat,
    args: &[TermPat],
    persistent: bool,
    target: &Part,
) -> Result<Option<Vec<Term>>, AllocError>
    requires channel { Tries channel.now }
    requires args { AllTries args.now }
    requires ready { Ready term (only (part_tree target.now)) }
    ensures { IfOk result (λ o. IsFirst (found (two (send persistent) channel.now (many row args.now)) (part_tree target.now)) o) }
{
    match target {
        Part::Send {
            channel: sent_on,
            args: data,
            persistent: kept,
        } => {
            if persistent != *kept {
                return Ok(None);
            }
            match find_whole(alloc, channel, sent_on)? {
                None => Ok(None),
                Some(first) => match find_items(alloc, args, TermRest::No, data)? {
                    None => Ok(None),
                    Some(others) => Ok(Some(joined(first, others)?)),
                },
            }
        }
        _ => Ok(None),
    }
}

#[cycle(find)]
fn find_bundle(
    alloc: Global,
    rights: Rights,
    body: &TermPat,
    target: &Part,
) -> Result<Option<Vec<Term>>, AllocError>
    requires tries { Tries body.now }
    requires ready { Ready term (only (part_tree target.now)) }
    ensures { IfOk result (λ o. IsFirst (found (one (bundle rights) body.now) (part_tree target.now)) o) }
{
    match target {
        Part::Bundle {
            rights: given,
            body: process,
        } => {
            if rights != *given {
                return Ok(None);
            }
            find_whole(alloc, body, process)
        }
        _ => Ok(None),
    }
}

// Patterns against processes, one by one, and a remainder for the rest.
#[cycle(find)]
pub(crate) fn find_items(
    alloc: Global,
    pats: &[TermPat],
    remainder: TermRest,
    terms: &[Term],
) -> Result<Option<Vec<Term>>, AllocError>
    requires tries { AllTries pats.now }
    requires ready { AllReady term terms.now }
    ensures { IfOk result (λ o. IsFirst (first_items_match (tried_pats pats.now) remainder of_list terms.now) o) }
{
    let mut found = Vec::new(alloc);
    for i in 0..pats.len() {
        if i >= terms.len() {
            return Ok(None);
        }
        match find_whole(alloc, &pats[i], &terms[i])? {
            None => return Ok(None),
            Some(next) => found = joined(found, next)?,
        }
    }
    match rest_items(alloc, pats.len(), remainder, terms)? {
        None => Ok(None),
        Some(last) => Ok(Some(joined(found, last)?)),
    }
}
