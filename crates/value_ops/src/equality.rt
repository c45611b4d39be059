// Equality of values, which is congruence.
ghost use Rattle.std.specs.Prelude.{◌≡◌};
ghost use Rattle.calculus.specs.Congruence.{congruent};
ghost use Rattle.value_ops.specs.Answers.{IsOperand};

use rho_term::Term;
use term_order::cmp_terms;

// Whether two processes are congruent: whether they have one code. No code is made.
pub(crate) fn are_equal(left: &Term, right: &Term) -> bool
    ensures { IsOperand left.now → IsOperand right.now → result ≡ congruent left.now right.now }
{
    cmp_terms(left, right).is_eq()
}
