// What a remainder binds.
ghost use Rattle.std.specs.Prelude.{◌≡◌, [], drop, map, IfOk};
ghost use Rattle.calculus.specs.Code.{codes};
ghost use Rattle.calculus.specs.Form.{pair_of, term};
ghost use Rattle.calculus.specs.Matching.{is_empty, one_if, rest_match, ways};
ghost use Rattle.calculus.specs.Operators.{of_list};
ghost use Rattle.calculus.specs.Order.{IsAscending};
ghost use Rattle.calculus.specs.Shape.{many, only};
ghost use Rattle.calculus.specs.Tree.{dict, set, trees};
ghost use Rattle.rho_term.specs.Parts.{pair_tree};
ghost use Rattle.free_places.specs.Places.{left_from};
ghost use Rattle.match_targets.specs.Found.{IsFirst, IsFirstMembers};
ghost use Rattle.match_targets.specs.Targets.{AllReady};

use crate::found::{found_if, found_one};
use crate::left::{left_pairs, left_terms};
use calculus::TermRest;
use free_places::is_spent;
use rho_term::{Part, Term};
use std::alloc::{AllocError, Global};

/// What a remainder binds of the processes from number i on. Want of memory is the one error.
pub fn rest_items(
    alloc: Global,
    i: usize,
    remainder: TermRest,
    terms: &[Term],
) -> Result<Option<Vec<Term>>, AllocError>
    ensures { IfOk result (λ o. IsFirst (rest_match remainder of_list (drop i terms.now)) o) }
{
    match remainder {
        TermRest::No => Ok(none_from(alloc, i, terms)),
        TermRest::Wild => Ok(Some(Vec::new(alloc))),
        TermRest::Var => {
            let left = items_from(alloc, i, terms)?;
            found_one(alloc, Term::from_part(alloc, Part::List(left))?)
        }
    }
}

// One match that binds nothing where no process stands from number i on, and else none.
fn none_from(alloc: Global, i: usize, terms: &[Term]) -> Option<Vec<Term>>
    ensures { IsFirst (one_if (is_empty (drop i terms.now))) result }
{
    if i < terms.len() {
        return None;
    }
    Some(Vec::new(alloc))
}

// The processes from number i on.
fn items_from(alloc: Global, i: usize, terms: &[Term]) -> Result<Vec<Term>, AllocError>
    ensures { IfOk result (λ v. v.items ≡ drop i terms.now) }
{
    let mut left = Vec::new(alloc);
    for j in i..terms.len() {
        left.push(terms[j].copy(alloc)?)?;
    }
    Ok(left)
}

/// All members of a set have chosen: the remainder takes what is left, and without one nothing may be left. Want of
/// memory is the one error.
pub fn rest_members(
    alloc: Global,
    rest: TermRest,
    terms: &[Term],
    used: &[usize],
) -> Result<Option<Vec<Term>>, AllocError>
    requires ready { AllReady term terms.now }
    requires ordered { IsAscending (codes (trees terms.now)) }
    ensures { IfOk result (λ o. IsFirstMembers rest (λ vs. only (many set vs)) (ways [] (left_from 0 used.now terms.now)) o) }
{
    match rest {
        TermRest::No => Ok(found_if(alloc, is_spent(terms.len(), used))),
        TermRest::Wild => Ok(Some(Vec::new(alloc))),
        TermRest::Var => {
            let left = left_terms(alloc, terms, used)?;
            found_one(alloc, Term::from_part(alloc, Part::Set(left))?)
        }
    }
}

/// The same for the pairs of a map.
pub fn rest_pairs(
    alloc: Global,
    rest: TermRest,
    pairs: &[(Term, Term)],
    used: &[usize],
) -> Result<Option<Vec<Term>>, AllocError>
    requires ready { AllReady (pair_of term) (map pair_tree pairs.now) }
    requires ordered { IsAscending (codes (trees (map pair_tree pairs.now))) }
    ensures { IfOk result (λ o. IsFirstMembers rest (λ vs. only (many dict vs))
        (ways [] (left_from 0 used.now (map pair_tree pairs.now))) o) }
{
    match rest {
        TermRest::No => Ok(found_if(alloc, is_spent(pairs.len(), used))),
        TermRest::Wild => Ok(Some(Vec::new(alloc))),
        TermRest::Var => {
            let left = left_pairs(alloc, pairs, used)?;
            found_one(alloc, Term::from_part(alloc, Part::Map(left))?)
        }
    }
}
