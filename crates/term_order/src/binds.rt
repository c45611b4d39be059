// The order of binds and of cases.
ghost use Rattle.std.specs.Prelude.{◌≡◌, map};
ghost use Rattle.calculus.specs.Form.{a_bind, a_case, row_of};
ghost use Rattle.calculus.specs.Shape.{many};
ghost use Rattle.calculus.specs.Tree.{row};
ghost use Rattle.rho_term.specs.Parts.{bind_tree, case_tree};
ghost use Rattle.term_order.specs.Orders.{ComparesAs, ThenCompares};

use crate::ground::rest_order;
use crate::patterns::{pat_order, then_pats};
use crate::terms::{term_order, then_term};
use rho_term::{TermBind, TermCase};
use std::cmp::Ordering;

// The channel stands first.
#[cycle(order)]
fn bind_order(a: &TermBind, b: &TermBind) -> Ordering
    ensures { ComparesAs a_bind (bind_tree a.now) (bind_tree b.now) result }
{
    let by_channel = term_order(&a.channel, &b.channel);
    let by_pats = then_pats(by_channel, &a.pats, &b.pats);
    by_pats.then(rest_order(a.rest, b.rest))
}

#[cycle(order)]
fn case_order(a: &TermCase, b: &TermCase) -> Ordering
    ensures { ComparesAs a_case (case_tree a.now) (case_tree b.now) result }
{
    let by_pat = pat_order(&a.pat, &b.pat);
    then_term(by_pat, &a.body, &b.body)
}

#[cycle(order)]
pub(crate) fn then_binds(first: Ordering, xs: &[TermBind], ys: &[TermBind]) -> Ordering
    ensures { ThenCompares first (row_of a_bind) (many row (map bind_tree xs.now)) (many row (map bind_tree ys.now)) result }
{
    if first.is_ne() {
        return first;
    }
    let by_number = xs.len().cmp(&ys.len());
    if by_number.is_ne() {
        return by_number;
    }
    for i in 0..xs.len() {
        let order = bind_order(&xs[i], &ys[i]);
        if order.is_ne() {
            return order;
        }
    }
    Ordering::Equal
}

#[cycle(order)]
pub(crate) fn then_cases(first: Ordering, xs: &[TermCase], ys: &[TermCase]) -> Ordering
    ensures { ThenCompares first (row_of a_case) (many row (map case_tree xs.now)) (many row (map case_tree ys.now)) result }
{
    if first.is_ne() {
        return first;
    }
    let by_number = xs.len().cmp(&ys.len());
    if by_number.is_ne() {
        return by_number;
    }
    for i in 0..xs.len() {
        let order = case_order(&xs[i], &ys[i]);
        if order.is_ne() {
            return order;
        }
    }
    Ordering::Equal
}
