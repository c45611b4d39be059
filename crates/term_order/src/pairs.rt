// The order of maps: of keys with their values.
ghost use Rattle.std.specs.Prelude.{map};
ghost use Rattle.calculus.specs.Form.{term, row_of, pair_of};
ghost use Rattle.calculus.specs.Shape.{many};
ghost use Rattle.calculus.specs.Tree.{row};
ghost use Rattle.rho_term.specs.Parts.{pair_tree};
ghost use Rattle.term_order.specs.Orders.{ComparesAs};

use crate::terms::{term_order, then_term};
use rho_term::Term;
use std::cmp::Ordering;

#[cycle(order)]
pub(crate) fn pairs_order(xs: &[(Term, Term)], ys: &[(Term, Term)]) -> Ordering
    ensures { ComparesAs (row_of (pair_of term)) (many row (map pair_tree xs.now)) (many row (map pair_tree ys.now)) result }
{
    let by_number = xs.len().cmp(&ys.len());
    if by_number.is_ne() {
        return by_number;
    }
    for i in 0..xs.len() {
        let order = pair_order(&xs[i], &ys[i]);
        if order.is_ne() {
            return order;
        }
    }
    Ordering::Equal
}

/// The order of the codes of two keys with their values that suit.
#[cycle(order)]
pub fn pair_order(a: &(Term, Term), b: &(Term, Term)) -> Ordering
    ensures { ComparesAs (pair_of term) (pair_tree a.now) (pair_tree b.now) result }
{
    let by_key = term_order(&a.0, &b.0);
    then_term(by_key, &a.1, &b.1)
}
