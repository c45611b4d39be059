// What a process is seen as: one part, an Int, an index or a range.
ghost use Rattle.std.specs.Prelude.{◌≡◌, MatchOption};
ghost use Rattle.calculus.specs.Operators.{seen, other};
ghost use Rattle.calculus.specs.Shape.{only};
ghost use Rattle.rho_term.specs.Normal.{IsNormal};
ghost use Rattle.rho_term.specs.Parts.{part_tree};
ghost use Rattle.value_ops.specs.Answers.{int_seen};
ghost use Rattle.value_ops.specs.Places.{index_seen, range_seen};

use calculus::{FaultKind, Ground};
use rho_term::{Part, Term};

/// The part of a process that has one.
pub(crate) fn only_part(term: &Term) -> Option<&Part>
    ensures part { MatchOption result (seen term.now ≡ other) (λ p. term.now ≡ only (part_tree p.now)) }
    ensures normal { IsNormal term.now }
{
    let parts = term.parts();
    if parts.len() == 1 {
        Some(&parts[0])
    } else {
        None
    }
}

/// The Int that this process is.
fn int_of(term: &Term) -> Option<i64>
    ensures { result ≡ int_seen (seen term.now) }
{
    let part = only_part(term)?;
    match part {
        Part::Ground(Ground::Int(number)) => Some(*number),
        _ => None,
    }
}

/// The index that an argument is.
pub(crate) fn index_of(index: &Term) -> Result<usize, FaultKind>
    ensures { result ≡ index_seen (seen index.now) }
{
    let Some(index) = int_of(index) else {
        return Err(FaultKind::WrongType);
    };
    if index < 0 {
        return Err(FaultKind::Index);
    }
    Ok(index as usize)
}

/// The indices that the arguments of `slice` are, the first no greater than the second.
pub(crate) fn range_of(from: &Term, to: &Term) -> Result<(usize, usize), FaultKind>
    ensures { result ≡ range_seen (seen from.now) (seen to.now) }
{
    let (Some(from), Some(to)) = (int_of(from), int_of(to)) else {
        return Err(FaultKind::WrongType);
    };
    if from < 0 || to < from {
        return Err(FaultKind::Index);
    }
    Ok((from as usize, to as usize))
}
