// What a value is: one ground value, or anything else.
ghost use Rattle.std.specs.Prelude.{◌≡◌, MatchOption};
ghost use Rattle.calculus.specs.Operators.{seen, seen_part};
ghost use Rattle.calculus.specs.Outcome.{Answer};
ghost use Rattle.calculus.specs.Tree.{Tree};
ghost use Rattle.calculus.specs.Shape.{only};
ghost use Rattle.rho_term.specs.Parts.{ground_tree, part_tree};
ghost use Rattle.value_ops.specs.Answers.{Answers, AnswersGround, IsNoGround, int_seen};

use crate::stop::OpStop;
use calculus::Ground;
use rho_term::{Part, Term};
use std::alloc::Global;

// The ground value that this process is.
pub(crate) fn ground_of(term: &Term) -> Option<&Ground>
    ensures { MatchOption result (IsNoGround (seen term.now)) (λ g. term.now ≡ only (ground_tree g.now)) }
{
    match term.parts() {
        [] => None,
        [part] => part_ground(part),
        [_, _, ..] => None,
    }
}

// The Int that this process is.
pub(crate) fn int_of(term: &Term) -> Option<i64>
    ensures { result ≡ int_seen (seen term.now) }
{
    match ground_of(term) {
        Some(Ground::Int(number)) => Some(*number),
        _ => None,
    }
}

fn part_ground(part: &Part) -> Option<&Ground>
    ensures { MatchOption result (IsNoGround (seen_part (part_tree part.now))) (λ g. part_tree part.now ≡ ground_tree g.now) }
{
    match part {
        Part::Ground(value) => Some(value),
        _ => None,
    }
}

// A ground value as a process.
pub(crate) fn process_of(alloc: Global, value: Result<Ground, OpStop>) -> Result<Term, OpStop>
    ensures { (a : Answer Tree) → AnswersGround a value → Answers a result }
{
    Ok(Term::from_part(alloc, Part::Ground(value?))?)
}
