ghost use Rattle.std.specs.Prelude.{◌≡◌, false, map, All, IfOk};
ghost use Rattle.calculus.specs.Normal.{ascending};
ghost use Rattle.calculus.specs.Operators.{of_set, of_map};
ghost use Rattle.rho_term.specs.Parts.{pair_tree};
ghost use Rattle.value_ops.specs.Answers.{IsOperand};

use crate::maker::Maker;
use crate::merge::last_of_each;
use code_order::{sorted_pairs, sorted_terms};
use rho_term::{Part, Term};
use std::alloc::{AllocError, Global};

/// The set of these members, each kept once. They are closed, and their codes shorter than 2^32 bytes.
/// Want of memory is the one error.
pub fn set_of(alloc: Global, members: Vec<Term>) -> Result<Term, AllocError>
    requires { All IsOperand members.items }
    ensures { IfOk result (λ t. t ≡ of_set members.items) }
{
    let mut maker = Maker::new(alloc);
    let set = distinct(&mut maker, members);
    maker.made(set)
}

/// The map of these pairs; of pairs with congruent keys the one whose value has the greatest code. Keys
/// are closed, and their codes shorter than 2^32 bytes. Want of memory is the one error.
pub fn map_of(alloc: Global, pairs: Vec<(Term, Term)>) -> Result<Term, AllocError>
    requires { All (λ p. IsOperand p.0) pairs.items }
    ensures { IfOk result (λ t. t ≡ of_map (ascending (map pair_tree pairs.items))) }
{
    let mut maker = Maker::new(alloc);
    let ordered = sorted_pairs(alloc, pairs);
    let sorted = maker.list(ordered);
    let kept = last_of_each(&mut maker, sorted);
    let map = maker.value(Part::Map(kept));
    maker.made(map)
}

/// The set of these members, each kept once.
pub(crate) fn distinct(maker: &mut Maker, members: Vec<Term>) -> Term
    requires { maker.old.failed ≡ false → All IsOperand members.items }
    ensures { maker.new.failed ≡ false → (maker.old.failed ≡ false) × (result ≡ of_set members.items) }
{
    let ordered = sorted_terms(maker.alloc, members);
    let sorted = maker.list(ordered);
    let kept = last_of_each(maker, sorted);
    maker.value(Part::Set(kept))
}
