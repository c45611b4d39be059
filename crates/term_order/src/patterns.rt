// The order of patterns. Parts of different forms stand in the order of their tags.
ghost use Rattle.std.specs.Prelude.{◌≡◌, map};
ghost use Rattle.calculus.specs.Code.{code};
ghost use Rattle.calculus.specs.Form.{name_pat, name_part, row_of, pair_of};
ghost use Rattle.calculus.specs.Shape.{leaf, one, two, many};
ghost use Rattle.calculus.specs.Tree.{row, tuple, send, bundle, rest, simple, same, both, either, not_this, list_pattern, set_pattern, map_pattern};
ghost use Rattle.rho_term.specs.Parts.{part_tree, pat_part_tree, ground_tree, pair_tree};
ghost use Rattle.term_order.specs.Orders.{first, Suits, ComparesAs, ComparesShort, ThenCompares, IsOwnTag, IsClosedTag};

use crate::ground::{flag_order, ground_order, ground_tag, rest_order, rights_order, simple_order};
use crate::parts::{ground_part_order, part_order, part_tag};
use crate::terms::term_order;
use calculus::{Ground, Rights, Simple, TermRest};
use rho_term::{Part, PatPart, Term, TermPat};
use std::cmp::Ordering;

#[cycle(order)]
pub(crate) fn pat_order(a: &TermPat, b: &TermPat) -> Ordering
    ensures { ComparesAs name_pat a.now b.now result }
{
    pat_parts_order(a.parts(), b.parts())
}

#[cycle(order)]
fn pat_parts_order(xs: &[PatPart], ys: &[PatPart]) -> Ordering
    ensures { ComparesAs (row_of name_part) (many row (map pat_part_tree xs.now)) (many row (map pat_part_tree ys.now)) result }
{
    let by_number = xs.len().cmp(&ys.len());
    if by_number.is_ne() {
        return by_number;
    }
    for i in 0..xs.len() {
        let order = pat_part_order(&xs[i], &ys[i]);
        if order.is_ne() {
            return order;
        }
    }
    Ordering::Equal
}

#[cycle(order)]
fn pat_pairs_order(xs: &[(TermPat, TermPat)], ys: &[(TermPat, TermPat)]) -> Ordering
    ensures { ComparesAs (row_of (pair_of name_pat)) (many row (map pair_tree xs.now)) (many row (map pair_tree ys.now)) result }
{
    let by_number = xs.len().cmp(&ys.len());
    if by_number.is_ne() {
        return by_number;
    }
    for i in 0..xs.len() {
        let order = pat_pair_order(&xs[i], &ys[i]);
        if order.is_ne() {
            return order;
        }
    }
    Ordering::Equal
}

#[cycle(order)]
fn pat_pair_order(a: &(TermPat, TermPat), b: &(TermPat, TermPat)) -> Ordering
    ensures { ComparesAs (pair_of name_pat) (pair_tree a.now) (pair_tree b.now) result }
{
    let by_key = pat_order(&a.0, &b.0);
    then_pat(by_key, &a.1, &b.1)
}

// Where the first order decides, the rest is not walked.
#[cycle(order)]
fn then_pat(first: Ordering, a: &TermPat, b: &TermPat) -> Ordering
    ensures { ThenCompares first name_pat a.now b.now result }
{
    if first.is_ne() {
        return first;
    }
    pat_order(a, b)
}

#[cycle(order)]
pub(crate) fn then_pats(first: Ordering, xs: &[TermPat], ys: &[TermPat]) -> Ordering
    ensures { ThenCompares first (row_of name_pat) (many row xs.now) (many row ys.now) result }
{
    if first.is_ne() {
        return first;
    }
    let by_number = xs.len().cmp(&ys.len());
    if by_number.is_ne() {
        return by_number;
    }
    for i in 0..xs.len() {
        let order = pat_order(&xs[i], &ys[i]);
        if order.is_ne() {
            return order;
        }
    }
    Ordering::Equal
}

#[cycle(order)]
fn pat_part_order(a: &PatPart, b: &PatPart) -> Ordering
    ensures { ComparesAs name_part (pat_part_tree a.now) (pat_part_tree b.now) result }
{
    match a {
        PatPart::Wild => 0x52.cmp(&pat_tag(b)),
        PatPart::Var => 0x50.cmp(&pat_tag(b)),
        PatPart::NameVar => 0x51.cmp(&pat_tag(b)),
        PatPart::Simple(x) => simple_pat_order(*x, b),
        PatPart::Same(x) => same_order(x, b),
        PatPart::Ground(x) => ground_pat_order(x, b),
        PatPart::Both(left, right) => both_order(left, right, b),
        PatPart::Either(left, right) => either_order(left, right, b),
        PatPart::Not(inner) => not_order(inner, b),
        PatPart::List(members, rest) => list_pat_order(members, *rest, b),
        PatPart::Tuple(members) => tuple_pat_order(members, b),
        PatPart::Set(members, rest) => set_pat_order(members, *rest, b),
        PatPart::Map(pairs, rest) => map_pat_order(pairs, *rest, b),
        PatPart::Send {
            channel,
            args,
            persistent,
        } => send_pat_order(channel, args, *persistent, b),
        PatPart::Bundle { rights, body } => bundle_pat_order(*rights, body, b),
        PatPart::Closed(x) => closed_order(x, b),
    }
}

// The first byte of the code of a pattern's part.
fn pat_tag(p: &PatPart) -> u8
    ensures is { result ≡ first (code (pat_part_tree p.now)) }
    ensures own { Suits name_part (pat_part_tree p.now) → IsOwnTag p.now result }
{
    match p {
        PatPart::Wild => 0x52,
        PatPart::Var => 0x50,
        PatPart::NameVar => 0x51,
        PatPart::Simple(_) => 0x57,
        PatPart::Same(_) => 0x53,
        PatPart::Ground(g) => ground_tag(g),
        PatPart::Both(_, _) => 0x54,
        PatPart::Either(_, _) => 0x55,
        PatPart::Not(_) => 0x56,
        PatPart::List(_, _) => 0x20,
        PatPart::Tuple(_) => 0x21,
        PatPart::Set(_, _) => 0x22,
        PatPart::Map(_, _) => 0x23,
        PatPart::Send { .. } => 0x30,
        PatPart::Bundle { .. } => 0x34,
        PatPart::Closed(x) => closed_tag(x),
    }
}

// The first byte of the code of a closed form. What other forms hold are processes, so they are no
// parts of patterns.
fn closed_tag(p: &Part) -> u8
    ensures is { result ≡ first (code (part_tree p.now)) }
    ensures own { Suits name_part (part_tree p.now) → IsClosedTag result }
{
    match p {
        Part::Tuple(members) => {
            if !members.is_empty() {
                let _parts = members[0].parts();
            }
        }
        Part::Send { channel, .. } => {
            let _parts = channel.parts();
        }
        Part::Bundle { body, .. } => {
            let _parts = body.parts();
        }
        _ => {}
    }
    part_tag(p)
}

fn simple_pat_order(x: Simple, b: &PatPart) -> Ordering
    ensures { ComparesAs name_part (leaf (simple x)) (pat_part_tree b.now) result }
{
    match b {
        PatPart::Simple(y) => simple_order(x, *y),
        _ => 0x57.cmp(&pat_tag(b)),
    }
}

#[cycle(order)]
fn same_order(x: &Term, b: &PatPart) -> Ordering
    ensures { ComparesAs name_part (one same x.now) (pat_part_tree b.now) result }
{
    match b {
        PatPart::Same(y) => term_order(x, y),
        _ => 0x53.cmp(&pat_tag(b)),
    }
}

fn ground_pat_order(x: &Ground, b: &PatPart) -> Ordering
    ensures { ComparesAs name_part (ground_tree x.now) (pat_part_tree b.now) result }
{
    match b {
        PatPart::Ground(y) => ground_order(x, y),
        PatPart::Closed(y) => ground_part_order(x, y),
        _ => ground_tag(x).cmp(&pat_tag(b)),
    }
}

#[cycle(order)]
fn both_order(left: &TermPat, right: &TermPat, b: &PatPart) -> Ordering
    ensures { ComparesAs name_part (two both left.now right.now) (pat_part_tree b.now) result }
{
    match b {
        PatPart::Both(other_left, other_right) => {
            let by_left = pat_order(left, other_left);
            then_pat(by_left, right, other_right)
        }
        _ => 0x54.cmp(&pat_tag(b)),
    }
}

#[cycle(order)]
fn either_order(left: &TermPat, right: &TermPat, b: &PatPart) -> Ordering
    ensures { ComparesAs name_part (two either left.now right.now) (pat_part_tree b.now) result }
{
    match b {
        PatPart::Either(other_left, other_right) => {
            let by_left = pat_order(left, other_left);
            then_pat(by_left, right, other_right)
        }
        _ => 0x55.cmp(&pat_tag(b)),
    }
}

#[cycle(order)]
fn not_order(inner: &TermPat, b: &PatPart) -> Ordering
    ensures { ComparesAs name_part (one not_this inner.now) (pat_part_tree b.now) result }
{
    match b {
        PatPart::Not(other) => pat_order(inner, other),
        _ => 0x56.cmp(&pat_tag(b)),
    }
}

#[cycle(order)]
fn list_pat_order(members: &[TermPat], remainder: TermRest, b: &PatPart) -> Ordering
    ensures { ComparesAs name_part (two list_pattern (many row members.now) (leaf (rest remainder))) (pat_part_tree b.now) result }
{
    match b {
        PatPart::List(other_members, other_rest) => {
            let by_members = then_pats(Ordering::Equal, members, other_members);
            by_members.then(rest_order(remainder, *other_rest))
        }
        _ => 0x20.cmp(&pat_tag(b)),
    }
}

#[cycle(order)]
fn tuple_pat_order(members: &[TermPat], b: &PatPart) -> Ordering
    ensures { ComparesAs name_part (many tuple members.now) (pat_part_tree b.now) result }
{
    match b {
        PatPart::Tuple(other_members) => then_pats(Ordering::Equal, members, other_members),
        _ => 0x21.cmp(&pat_tag(b)),
    }
}

#[cycle(order)]
fn set_pat_order(members: &[TermPat], remainder: TermRest, b: &PatPart) -> Ordering
    ensures { ComparesAs name_part (two set_pattern (many row members.now) (leaf (rest remainder))) (pat_part_tree b.now) result }
{
    match b {
        PatPart::Set(other_members, other_rest) => {
            let by_members = then_pats(Ordering::Equal, members, other_members);
            by_members.then(rest_order(remainder, *other_rest))
        }
        _ => 0x22.cmp(&pat_tag(b)),
    }
}

#[cycle(order)]
fn map_pat_order(pairs: &[(TermPat, TermPat)], remainder: TermRest, b: &PatPart) -> Ordering
    ensures { ComparesAs name_part (two map_pattern (many row (map pair_tree pairs.now)) (leaf (rest remainder)))
        (pat_part_tree b.now) result }
{
    match b {
        PatPart::Map(other_pairs, other_rest) => {
            let by_pairs = pat_pairs_order(pairs, other_pairs);
            by_pairs.then(rest_order(remainder, *other_rest))
        }
        _ => 0x23.cmp(&pat_tag(b)),
    }
}

#[cycle(order)]
fn send_pat_order(channel: &TermPat, args: &[TermPat], persistent: bool, b: &PatPart) -> Ordering
    ensures { ComparesAs name_part (two (send persistent) channel.now (many row args.now)) (pat_part_tree b.now) result }
{
    match b {
        PatPart::Send {
            channel: other_channel,
            args: other_args,
            persistent: other_persistent,
        } => {
            let by_flag = flag_order(persistent, *other_persistent);
            let by_channel = then_pat(by_flag, channel, other_channel);
            then_pats(by_channel, args, other_args)
        }
        _ => 0x30.cmp(&pat_tag(b)),
    }
}

#[cycle(order)]
fn bundle_pat_order(rights: Rights, body: &TermPat, b: &PatPart) -> Ordering
    ensures { ComparesAs name_part (one (bundle rights) body.now) (pat_part_tree b.now) result }
{
    match b {
        PatPart::Bundle {
            rights: other_rights,
            body: other_body,
        } => {
            let by_rights = rights_order(rights, *other_rights);
            then_pat(by_rights, body, other_body)
        }
        _ => 0x34.cmp(&pat_tag(b)),
    }
}

#[cycle(order)]
fn closed_order(x: &Part, b: &PatPart) -> Ordering
    ensures { ComparesAs name_part (part_tree x.now) (pat_part_tree b.now) result }
{
    let tag = closed_tag(x);
    match b {
        PatPart::Ground(y) => part_ground_order(x, y),
        PatPart::Closed(y) => {
            let _other_tag = closed_tag(y);
            part_order(x, y)
        }
        _ => tag.cmp(&pat_tag(b)),
    }
}

fn part_ground_order(x: &Part, b: &Ground) -> Ordering
    ensures { ComparesShort (part_tree x.now) (ground_tree b.now) result }
{
    match x {
        Part::Ground(y) => ground_order(y, b),
        _ => part_tag(x).cmp(&ground_tag(b)),
    }
}
