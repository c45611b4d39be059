// The pairs of a map pattern against those of a map, in the way of thin parts, with a remainder.
ghost use Rattle.std.specs.Prelude.{◌≡◌, ◌<◌, ◌≤◌, ◌+◌, false, IfOk, drop, length, map};
ghost use Rattle.calculus.specs.Code.{codes};
ghost use Rattle.calculus.specs.Form.{pair_of, term};
ghost use Rattle.calculus.specs.Matching.{ways};
ghost use Rattle.calculus.specs.Order.{IsAscending};
ghost use Rattle.calculus.specs.Shape.{many, only};
ghost use Rattle.calculus.specs.Tree.{dict, trees};
ghost use Rattle.rho_term.specs.Parts.{pair_tree};
ghost use Rattle.match_targets.specs.Targets.{AllReady, Ready};
ghost use Rattle.spatial_match.specs.Given.{AllTries, Tries};
ghost use Rattle.spatial_match.specs.Search.{FailedBefore, at_place, member_at};
ghost use Rattle.match_targets.specs.Found.{may_rest, IsFirst, IsFirstMembers};
ghost use Rattle.free_places.specs.Places.{has, left_from};
ghost use Rattle.spatial_match.specs.Found.{found, tried_pairs};

use crate::parts::find_whole;
use calculus::TermRest;
use free_places::{next_free, with_place};
use match_targets::{joined, repeats_pair, rest_pairs};
use rho_term::{Term, TermPat};
use std::alloc::{AllocError, Global};

/// The pairs of a map pattern and its remainder, and the pairs of a map.
#[derive(Clone, Copy)]
pub(crate) struct MapSearch<'a> {
    pub pats: &'a [(TermPat, TermPat)],
    pub rest: TermRest,
    pub pairs: &'a [(Term, Term)],
}

// The pairs from number i on. Pairs before them have used some of the target's.
#[cycle(find)]
pub(crate) fn find_pairs(
    alloc: Global,
    search: MapSearch,
    i: usize,
    used: &[usize],
) -> Result<Option<Vec<Term>>, AllocError>
    requires within { i ≤ length search.pats.now }
    requires tries { AllTries (map pair_tree search.pats.now) }
    requires ready { AllReady (pair_of term) (map pair_tree search.pairs.now) }
    requires ordered { IsAscending (codes (trees (map pair_tree search.pairs.now))) }
    ensures { IfOk result (λ o. IsFirstMembers search.entry.rest (λ vs. only (many dict vs))
        (ways (drop i (tried_pairs search.entry.pats.now)) (left_from 0 used.now (map pair_tree search.entry.pairs.now))) o) }
{
    let MapSearch { pats, rest, pairs } = search;
    if i >= pats.len() {
        return rest_pairs(alloc, rest, pairs, used);
    }
    let mut from = 0;
    while let Some(j) = next_free(used, from, pairs.len()) {
        let found = try_pair(alloc, search, i, used, j)?;
        if found.is_some() {
            return Ok(found);
        }
        from = j + 1;
    }
    Ok(None)
}

// Pair number i takes pair number j of the target, which is not used. It has failed with
// the target's one before that.
#[cycle(find)]
fn try_pair(
    alloc: Global,
    search: MapSearch,
    i: usize,
    used: &[usize],
    j: usize,
) -> Result<Option<Vec<Term>>, AllocError>
    requires within { i < length search.pats.now }
    requires target_within { j < length search.pairs.now }
    requires free { has used.now j ≡ false }
    requires failed { FailedBefore (may_rest search.rest) (member_at i (tried_pairs search.pats.now))
        (drop (i + 1) (tried_pairs search.pats.now)) used.now (map pair_tree search.pairs.now) j }
    requires tries { AllTries (map pair_tree search.pats.now) }
    requires ready { AllReady (pair_of term) (map pair_tree search.pairs.now) }
    requires ordered { IsAscending (codes (trees (map pair_tree search.pairs.now))) }
    ensures { IfOk result (λ o. IsFirstMembers search.entry.rest (λ vs. only (many dict vs))
        (at_place (member_at i (tried_pairs search.entry.pats.now)) (drop (i + 1) (tried_pairs search.entry.pats.now))
        used.now (map pair_tree search.entry.pairs.now) j) o) }
{
    let MapSearch { pats, pairs, .. } = search;
    if repeats_pair(pairs, used, j) {
        return Ok(None);
    }
    match find_pair(alloc, &pats[i], &pairs[j])? {
        None => Ok(None),
        Some(found) => {
            let next = with_place(alloc, used, j)?;
            match find_pairs(alloc, search, i + 1, &next)? {
                None => Ok(None),
                Some(others) => Ok(Some(joined(found, others)?)),
            }
        }
    }
}

// A pair of a pattern against a pair: its key, and then its value.
#[cycle(find)]
fn find_pair(
    alloc: Global,
    pat: &(TermPat, TermPat),
    pair: &(Term, Term),
) -> Result<Option<Vec<Term>>, AllocError>
    requires tries { Tries (pair_tree pat.now) }
    requires ready { Ready (pair_of term) (pair_tree pair.now) }
    ensures { IfOk result (λ o. IsFirst (found (pair_tree pat.now) (pair_tree pair.now)) o) }
{
    match find_whole(alloc, &pat.0, &pair.0)? {
        None => Ok(None),
        Some(key) => match find_whole(alloc, &pat.1, &pair.1)? {
            None => Ok(None),
            Some(value) => Ok(Some(joined(key, value)?)),
        },
    }
}
