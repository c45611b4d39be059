// The members of a set pattern against those of a set, in the way of thin parts, with a remainder.
ghost use Rattle.std.specs.Prelude.{◌≡◌, ◌<◌, ◌≤◌, ◌+◌, false, IfOk, drop, length};
ghost use Rattle.calculus.specs.Code.{codes};
ghost use Rattle.calculus.specs.Form.{term};
ghost use Rattle.calculus.specs.Matching.{ways};
ghost use Rattle.calculus.specs.Order.{IsAscending};
ghost use Rattle.calculus.specs.Shape.{many, only};
ghost use Rattle.calculus.specs.Tree.{set, trees};
ghost use Rattle.match_targets.specs.Targets.{AllReady};
ghost use Rattle.spatial_match.specs.Given.{AllTries};
ghost use Rattle.spatial_match.specs.Search.{FailedBefore, at_place, member_at};
ghost use Rattle.match_targets.specs.Found.{may_rest, IsFirstMembers};
ghost use Rattle.free_places.specs.Places.{has, left_from};
ghost use Rattle.spatial_match.specs.Found.{tried_pats};

use crate::parts::find_whole;
use calculus::TermRest;
use free_places::{next_free, with_place};
use match_targets::{joined, repeats_member, rest_members};
use rho_term::{Term, TermPat};
use std::alloc::{AllocError, Global};

/// The members of a set pattern and its remainder, and the members of a set.
#[derive(Clone, Copy)]
pub(crate) struct SetSearch<'a> {
    pub pats: &'a [TermPat],
    pub rest: TermRest,
    pub terms: &'a [Term],
}

// The members from number i on. Members before them have used some of the target's.
#[cycle(find)]
pub(crate) fn find_members(
    alloc: Global,
    search: SetSearch,
    i: usize,
    used: &[usize],
) -> Result<Option<Vec<Term>>, AllocError>
    requires within { i ≤ length search.pats.now }
    requires tries { AllTries search.pats.now }
    requires ready { AllReady term search.terms.now }
    requires ordered { IsAscending (codes (trees search.terms.now)) }
    ensures { IfOk result (λ o. IsFirstMembers search.entry.rest (λ vs. only (many set vs))
        (ways (drop i (tried_pats search.entry.pats.now)) (left_from 0 used.now search.entry.terms.now)) o) }
{
    let SetSearch { pats, rest, terms } = search;
    if i >= pats.len() {
        return rest_members(alloc, rest, terms, used);
    }
    let _given = pats[i].parts();
    let mut from = 0;
    while let Some(j) = next_free(used, from, terms.len()) {
        let found = try_member(alloc, search, i, used, j)?;
        if found.is_some() {
            return Ok(found);
        }
        from = j + 1;
    }
    Ok(None)
}

// Member number i takes member number j of the target, which is not used. It has failed with
// the target's one before that.
#[cycle(find)]
fn try_member(
    alloc: Global,
    search: SetSearch,
    i: usize,
    used: &[usize],
    j: usize,
) -> Result<Option<Vec<Term>>, AllocError>
    requires within { i < length search.pats.now }
    requires target_within { j < length search.terms.now }
    requires free { has used.now j ≡ false }
    requires failed { FailedBefore (may_rest search.rest) (member_at i (tried_pats search.pats.now))
        (drop (i + 1) (tried_pats search.pats.now)) used.now search.terms.now j }
    requires tries { AllTries search.pats.now }
    requires ready { AllReady term search.terms.now }
    requires ordered { IsAscending (codes (trees search.terms.now)) }
    ensures { IfOk result (λ o. IsFirstMembers search.entry.rest (λ vs. only (many set vs))
        (at_place (member_at i (tried_pats search.entry.pats.now)) (drop (i + 1) (tried_pats search.entry.pats.now))
        used.now search.entry.terms.now j) o) }
{
    let SetSearch { pats, terms, .. } = search;
    if repeats_member(terms, used, j) {
        return Ok(None);
    }
    match find_whole(alloc, &pats[i], &terms[j])? {
        None => Ok(None),
        Some(found) => {
            let next = with_place(alloc, used, j)?;
            match find_members(alloc, search, i + 1, &next)? {
                None => Ok(None),
                Some(others) => Ok(Some(joined(found, others)?)),
            }
        }
    }
}
