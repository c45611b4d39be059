// The order of processes, and of the lists in them.
ghost use Rattle.calculus.specs.Form.{term, row_of};
ghost use Rattle.calculus.specs.Shape.{many};
ghost use Rattle.calculus.specs.Tree.{row};
ghost use Rattle.term_order.specs.Orders.{ComparesAs, ThenCompares, OrdersCodes};

use crate::parts::parts_order;
use rho_term::Term;
use std::cmp::Ordering;

/// The order of the codes of two terms.
///
/// It holds of processes whose variables are bound in some scope, where both codes are shorter than
/// 2^32 bytes. No code is made: it ends at the first place where the terms differ.
pub fn cmp_terms(a: &Term, b: &Term) -> Ordering
    ensures { OrdersCodes a.now b.now result }
{
    parts_order(a.parts(), b.parts())
}

/// The order of the codes of two processes that suit.
#[cycle(order)]
pub fn term_order(a: &Term, b: &Term) -> Ordering
    ensures { ComparesAs term a.now b.now result }
{
    parts_order(a.parts(), b.parts())
}

// Where the first order decides, the rest is not walked.
#[cycle(order)]
pub(crate) fn then_term(first: Ordering, a: &Term, b: &Term) -> Ordering
    ensures { ThenCompares first term a.now b.now result }
{
    if first.is_ne() {
        return first;
    }
    term_order(a, b)
}

#[cycle(order)]
pub(crate) fn then_terms(first: Ordering, xs: &[Term], ys: &[Term]) -> Ordering
    ensures { ThenCompares first (row_of term) (many row xs.now) (many row ys.now) result }
{
    if first.is_ne() {
        return first;
    }
    let by_number = xs.len().cmp(&ys.len());
    if by_number.is_ne() {
        return by_number;
    }
    for i in 0..xs.len() {
        let order = term_order(&xs[i], &ys[i]);
        if order.is_ne() {
            return order;
        }
    }
    Ordering::Equal
}
