// The parts of a parallel pattern against those of a process: the thin ones choose, and the wide one takes the rest.
ghost use Rattle.std.specs.Prelude.{◌≡◌, ◌<◌, ◌≤◌, ◌+◌, ◌||◌, true, false, not, [], IfOk, IsSomeAnd, MatchOption, drop, length, map};
ghost use Rattle.calculus.specs.Form.{term};
ghost use Rattle.calculus.specs.Matching.{both_of, one_if, some_match, ways};
ghost use Rattle.calculus.specs.Shape.{held, label_of};
ghost use Rattle.calculus.specs.Tree.{trees};
ghost use Rattle.calculus.specs.Variables.{is_wide};
ghost use Rattle.rho_term.specs.Normal.{AreNormal};
ghost use Rattle.rho_term.specs.Parts.{pat_part_tree};
ghost use Rattle.spatial_match.specs.Given.{PartsTry, Tries};
ghost use Rattle.match_targets.specs.Targets.{Ready, remaining};
ghost use Rattle.spatial_match.specs.Search.{AtMostOne, FailedBefore, at_place, member_at};
ghost use Rattle.free_places.specs.Places.{has, left_from};
ghost use Rattle.match_targets.specs.Found.{IsFirst};
ghost use Rattle.spatial_match.specs.Found.{IsFirstWay, found, may_leave, tried};

use crate::forms::find_part;
use crate::split::{Split, with_thin, with_wide};
use free_places::{is_spent, next_free, with_place};
use match_targets::{found_if, found_one, joined, left_term, repeats_part, same_left};
use rho_term::{PatPart, Term, TermPat};
use std::alloc::{AllocError, Global};

// A pattern against the parts that are not used.
#[cycle(find)]
pub(crate) fn find_pat(
    alloc: Global,
    pat: &TermPat,
    target: &Term,
    used: &[usize],
) -> Result<Option<Vec<Term>>, AllocError>
    requires tries { Tries pat.now }
    requires ready { Ready term target.now }
    ensures { IfOk result (λ o. IsFirst (found pat.now (remaining used.now target.now)) o) }
{
    let _given = target.parts();
    let pats = pat.parts();
    match find_parts(alloc, pats, 0, target, used)? {
        None => Ok(None),
        Some(split) => {
            let Split { wide, rest } = split;
            drop(wide);
            Ok(Some(rest))
        }
    }
}

// A pattern against a whole process.
#[cycle(find)]
pub(crate) fn find_whole(
    alloc: Global,
    pat: &TermPat,
    target: &Term,
) -> Result<Option<Vec<Term>>, AllocError>
    requires tries { Tries pat.now }
    requires ready { Ready term target.now }
    ensures { IfOk result (λ o. IsFirst (found pat.now target.now) o) }
{
    let none: [usize; 0] = [];
    find_pat(alloc, pat, target, &none)
}

// The parts from number i on. Parts before them have used some of the target's.
#[cycle(find)]
fn find_parts(
    alloc: Global,
    pats: &[PatPart],
    i: usize,
    target: &Term,
    used: &[usize],
) -> Result<Option<Split>, AllocError>
    requires within { i ≤ length pats.now }
    requires tries { PartsTry pats.now }
    requires normal { AreNormal (trees (map pat_part_tree pats.now)) }
    requires one_wide { AtMostOne (tried pats.now) }
    requires ready { Ready term target.now }
    ensures { IfOk result (λ o. IsFirstWay (tried pats.now) (drop i (tried pats.now))
        (ways (drop i (tried pats.now)) (left_from 0 used.now (held target.now))) o) }
{
    if i >= pats.len() {
        return find_end(alloc, pats, target, used);
    }
    if is_wide(&pats[i]) {
        return find_around(alloc, pats, i, target, used);
    }
    let count = target.parts().len();
    let mut from = 0;
    while let Some(j) = next_free(used, from, count) {
        let found = try_part(alloc, pats, i, target, used, j)?;
        if found.is_some() {
            return Ok(found);
        }
        from = j + 1;
    }
    Ok(None)
}

// The wide part chooses nothing: it takes what the parts after it leave.
#[cycle(find)]
fn find_around(
    alloc: Global,
    pats: &[PatPart],
    i: usize,
    target: &Term,
    used: &[usize],
) -> Result<Option<Split>, AllocError>
    requires within { i < length pats.now }
    requires wide { (member_at i (tried pats.now)).wide ≡ true }
    requires tries { PartsTry pats.now }
    requires normal { AreNormal (trees (map pat_part_tree pats.now)) }
    requires one_wide { AtMostOne (tried pats.now) }
    requires ready { Ready term target.now }
    ensures { IfOk result (λ o. IsFirstWay (tried pats.now) (drop i (tried pats.now))
        (ways (drop i (tried pats.now)) (left_from 0 used.now (held target.now))) o) }
{
    match find_parts(alloc, pats, i + 1, target, used)? {
        None => Ok(None),
        Some(split) => Ok(Some(with_wide(split)?)),
    }
}

// The thin part number i takes part number j of the target, which is not used. It has failed with the
// target's part before that one.
#[cycle(find)]
fn try_part(
    alloc: Global,
    pats: &[PatPart],
    i: usize,
    target: &Term,
    used: &[usize],
    j: usize,
) -> Result<Option<Split>, AllocError>
    requires within { i < length pats.now }
    requires thin { (member_at i (tried pats.now)).wide ≡ false }
    requires target_within { j < length (held target.now) }
    requires free { has used.now j ≡ false }
    requires failed { FailedBefore (may_leave (tried pats.now)) (member_at i (tried pats.now))
        (drop (i + 1) (tried pats.now)) used.now (held target.now) j }
    requires tries { PartsTry pats.now }
    requires normal { AreNormal (trees (map pat_part_tree pats.now)) }
    requires one_wide { AtMostOne (tried pats.now) }
    requires ready { Ready term target.now }
    ensures { IfOk result (λ o. IsFirstWay (tried pats.now) (drop i (tried pats.now))
        (at_place (member_at i (tried pats.now)) (drop (i + 1) (tried pats.now)) used.now (held target.now) j) o) }
{
    if repeats_part(target, used, j) {
        return Ok(None);
    }
    let parts = target.parts();
    match find_part(alloc, &pats[i], &parts[j])? {
        None => Ok(None),
        Some(found) => {
            let next = with_place(alloc, used, j)?;
            match find_parts(alloc, pats, i + 1, target, &next)? {
                None => Ok(None),
                Some(split) => Ok(Some(with_thin(found, split)?)),
            }
        }
    }
}

// All thin parts have chosen: the wide part takes what is left, and without one nothing may be left.
#[cycle(find)]
fn find_end(
    alloc: Global,
    pats: &[PatPart],
    target: &Term,
    used: &[usize],
) -> Result<Option<Split>, AllocError>
    requires tries { PartsTry pats.now }
    requires normal { AreNormal (trees (map pat_part_tree pats.now)) }
    requires one_wide { AtMostOne (tried pats.now) }
    requires ready { Ready term target.now }
    ensures { IfOk result (λ o. IsFirstWay (tried pats.now) [] (ways [] (left_from 0 used.now (held target.now))) o) }
{
    for k in 0..pats.len() {
        if is_wide(&pats[k]) {
            return Ok(split_wide(alloc, find_wide(alloc, &pats[k], target, used)?));
        }
    }
    if is_spent(target.parts().len(), used) {
        return Ok(split_wide(alloc, Some(Vec::new(alloc))));
    }
    Ok(None)
}

// What a wide part binds of the parts that are not used.
#[cycle(find)]
fn find_wide(
    alloc: Global,
    pat: &PatPart,
    target: &Term,
    used: &[usize],
) -> Result<Option<Vec<Term>>, AllocError>
    requires wide { is_wide (label_of (pat_part_tree pat.now)) ≡ true }
    requires tries { Tries (pat_part_tree pat.now) }
    requires ready { Ready term target.now }
    ensures { IfOk result (λ o. IsFirst (found (pat_part_tree pat.now) (remaining used.now target.now)) o) }
{
    match pat {
        PatPart::Wild => Ok(Some(Vec::new(alloc))),
        PatPart::Var => found_one(alloc, left_term(alloc, target, used)?),
        PatPart::NameVar => found_one(alloc, left_term(alloc, target, used)?),
        PatPart::Same(process) => Ok(found_if(alloc, same_left(alloc, process, target, used)?)),
        PatPart::Both(left, right) => find_both(alloc, left, right, target, used),
        PatPart::Either(left, right) => find_either(alloc, left, right, target, used),
        PatPart::Not(inner) => find_not(alloc, inner, target, used),
        _ => Ok(None),
    }
}

#[cycle(find)]
fn find_both(
    alloc: Global,
    left: &TermPat,
    right: &TermPat,
    target: &Term,
    used: &[usize],
) -> Result<Option<Vec<Term>>, AllocError>
    requires left { Tries left.now }
    requires right { Tries right.now }
    requires ready { Ready term target.now }
    ensures { IfOk result (λ o. IsFirst (both_of (found left.now (remaining used.now target.now))
        (found right.now (remaining used.now target.now))) o) }
{
    match find_pat(alloc, left, target, used)? {
        None => Ok(None),
        Some(first) => match find_pat(alloc, right, target, used)? {
            None => Ok(None),
            Some(second) => Ok(Some(joined(first, second)?)),
        },
    }
}

#[cycle(find)]
fn find_either(
    alloc: Global,
    left: &TermPat,
    right: &TermPat,
    target: &Term,
    used: &[usize],
) -> Result<Option<Vec<Term>>, AllocError>
    requires left { Tries left.now }
    requires right { Tries right.now }
    requires ready { Ready term target.now }
    ensures { IfOk result (λ o. IsFirst (one_if (some_match (found left.now (remaining used.now target.now)) ||
        some_match (found right.now (remaining used.now target.now)))) o) }
{
    if find_pat(alloc, left, target, used)?.is_some() {
        return Ok(found_if(alloc, true));
    }
    let found = find_pat(alloc, right, target, used)?;
    Ok(found_if(alloc, found.is_some()))
}

#[cycle(find)]
fn find_not(
    alloc: Global,
    inner: &TermPat,
    target: &Term,
    used: &[usize],
) -> Result<Option<Vec<Term>>, AllocError>
    requires inner { Tries inner.now }
    requires ready { Ready term target.now }
    ensures { IfOk result (λ o. IsFirst (one_if (not (some_match (found inner.now (remaining used.now target.now))))) o) }
{
    let found = find_pat(alloc, inner, target, used)?;
    Ok(found_if(alloc, found.is_none()))
}

// The end of a search: nothing stands behind it.
fn split_wide(alloc: Global, wide: Option<Vec<Term>>) -> Option<Split>
    ensures { MatchOption wide (result ≡ None) (λ v. IsSomeAnd result (λ s. (s.wide.items ≡ v.items) × (s.rest.items ≡ []))) }
{
    match wide {
        None => None,
        Some(wide) => Some(Split {
            wide,
            rest: Vec::new(alloc),
        }),
    }
}

// Whether a part of a pattern takes all that is left.
fn is_wide(pat: &PatPart) -> bool
    ensures { result ≡ is_wide (label_of (pat_part_tree pat.now)) }
{
    match pat {
        PatPart::Wild => true,
        PatPart::Var => true,
        PatPart::NameVar => true,
        PatPart::Same(_) => true,
        PatPart::Both(_, _) => true,
        PatPart::Either(_, _) => true,
        PatPart::Not(_) => true,
        _ => false,
    }
}
