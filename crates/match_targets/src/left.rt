// What is left of a target where the parts or members with some numbers are used.
ghost use Rattle.std.specs.Prelude.{◌≡◌, map, IfOk};
ghost use Rattle.calculus.specs.Congruence.{congruent};
ghost use Rattle.calculus.specs.Form.{term};
ghost use Rattle.rho_term.specs.Parts.{pair_tree};
ghost use Rattle.match_targets.specs.Targets.{Ready, remaining};
ghost use Rattle.free_places.specs.Places.{left_from};

use free_places::is_free;
use rho_term::Term;
use std::alloc::{AllocError, Global};
use term_order::cmp_terms;

/// The process of the parts that are not used.
pub fn left_term(alloc: Global, target: &Term, used: &[usize]) -> Result<Term, AllocError>
    requires { Ready term target.now }
    ensures { IfOk result (λ t. t ≡ remaining used.now target.now) }
{
    let parts = target.parts();
    let mut left = Vec::new(alloc);
    for j in 0..parts.len() {
        if is_free(used, j) {
            let part = parts[j].copy(alloc)?;
            left.push(part)?;
        }
    }
    Ok(Term::from_sorted(left))
}

/// Whether the parts that are not used are a process congruent to this one.
pub fn same_left(
    alloc: Global,
    process: &Term,
    target: &Term,
    used: &[usize],
) -> Result<bool, AllocError>
    requires process { Ready term process.now }
    requires target { Ready term target.now }
    ensures { IfOk result (λ b. b ≡ congruent process.now (remaining used.now target.now)) }
{
    if used.is_empty() {
        return Ok(cmp_terms(process, target).is_eq());
    }
    let left = left_term(alloc, target, used)?;
    Ok(cmp_terms(process, &left).is_eq())
}

// The processes that are not used.
pub(crate) fn left_terms(
    alloc: Global,
    terms: &[Term],
    used: &[usize],
) -> Result<Vec<Term>, AllocError>
    ensures { IfOk result (λ v. v.items ≡ left_from 0 used.now terms.now) }
{
    let mut left = Vec::new(alloc);
    for j in 0..terms.len() {
        if is_free(used, j) {
            let term = terms[j].copy(alloc)?;
            left.push(term)?;
        }
    }
    Ok(left)
}

// The pairs that are not used.
pub(crate) fn left_pairs(
    alloc: Global,
    pairs: &[(Term, Term)],
    used: &[usize],
) -> Result<Vec<(Term, Term)>, AllocError>
    ensures { IfOk result (λ v. map pair_tree v.items ≡ left_from 0 used.now (map pair_tree pairs.now)) }
{
    let mut left = Vec::new(alloc);
    for j in 0..pairs.len() {
        if is_free(used, j) {
            let pair = copy_pair(alloc, &pairs[j])?;
            left.push(pair)?;
        }
    }
    Ok(left)
}

fn copy_pair(alloc: Global, pair: &(Term, Term)) -> Result<(Term, Term), AllocError>
    ensures { IfOk result (λ p. pair_tree p ≡ pair_tree pair.now) }
{
    let key = pair.0.copy(alloc)?;
    let value = pair.1.copy(alloc)?;
    Ok((key, value))
}
