// The order of parts of processes. Parts of different forms stand in the order of their tags.
ghost use Rattle.std.specs.Prelude.{◌≡◌, map, string_bytes};
ghost use Rattle.calculus.specs.Code.{code};
ghost use Rattle.calculus.specs.Form.{part, row_of};
ghost use Rattle.calculus.specs.Shape.{leaf, one, two, many};
ghost use Rattle.calculus.specs.Tree.{row, fresh, var, name_var, list, tuple, set, dict, send, receive, new, match, bundle, unary, binary, method};
ghost use Rattle.rho_term.specs.Parts.{part_tree, ground_tree, pair_tree, bind_tree, case_tree};
ghost use Rattle.term_order.specs.Orders.{first, ComparesAs, ComparesShort};

use crate::binds::{then_binds, then_cases};
use crate::ground::{
    binary_op_order, digest_order, flag_order, ground_order, ground_tag, index_order, kind_order,
    origins_order, rights_order, text_order, unary_op_order,
};
use crate::pairs::pairs_order;
use crate::terms::{term_order, then_term, then_terms};
use calculus::{BinaryOp, Digest, Ground, Kind, Origin, Rights, UnaryOp};
use rho_term::{Part, Term, TermBind, TermCase};
use std::cmp::Ordering;

#[cycle(order)]
pub(crate) fn parts_order(xs: &[Part], ys: &[Part]) -> Ordering
    ensures { ComparesAs (row_of part) (many row (map part_tree xs.now)) (many row (map part_tree ys.now)) result }
{
    let by_number = xs.len().cmp(&ys.len());
    if by_number.is_ne() {
        return by_number;
    }
    for i in 0..xs.len() {
        let order = part_order(&xs[i], &ys[i]);
        if order.is_ne() {
            return order;
        }
    }
    Ordering::Equal
}

/// The order of the codes of two parts of processes that suit.
#[cycle(order)]
pub fn part_order(a: &Part, b: &Part) -> Ordering
    ensures { ComparesAs part (part_tree a.now) (part_tree b.now) result }
{
    match a {
        Part::Ground(x) => ground_part_order(x, b),
        Part::Fresh(x) => fresh_order(x, b),
        Part::Var(i) => var_order(*i, b),
        Part::NameVar(i) => name_var_order(*i, b),
        Part::List(xs) => list_order(xs, b),
        Part::Tuple(xs) => tuple_order(xs, b),
        Part::Set(xs) => set_order(xs, b),
        Part::Map(xs) => map_order(xs, b),
        Part::Send {
            channel,
            args,
            persistent,
        } => send_order(channel, args, *persistent, b),
        Part::Receive { kind, binds, body } => receive_order(*kind, binds, body, b),
        Part::New { names, body } => new_order(names, body, b),
        Part::Match { target, cases } => match_order(target, cases, b),
        Part::Bundle { rights, body } => bundle_order(*rights, body, b),
        Part::Unary { op, arg } => unary_order(*op, arg, b),
        Part::Binary { op, left, right } => binary_order(*op, left, right, b),
        Part::Method { name, target, args } => method_order(name.as_bytes(), target, args, b),
    }
}

// The first byte of a part's code, which is its form's own.
pub(crate) fn part_tag(p: &Part) -> u8
    ensures { result ≡ first (code (part_tree p.now)) }
{
    match p {
        Part::Ground(g) => ground_tag(g),
        Part::Fresh(_) => 0x15,
        Part::Var(_) => 0x16,
        Part::NameVar(_) => 0x17,
        Part::List(_) => 0x20,
        Part::Tuple(_) => 0x21,
        Part::Set(_) => 0x22,
        Part::Map(_) => 0x23,
        Part::Send { .. } => 0x30,
        Part::Receive { .. } => 0x31,
        Part::New { .. } => 0x32,
        Part::Match { .. } => 0x33,
        Part::Bundle { .. } => 0x34,
        Part::Unary { .. } => 0x40,
        Part::Binary { .. } => 0x41,
        Part::Method { .. } => 0x42,
    }
}

pub(crate) fn ground_part_order(x: &Ground, b: &Part) -> Ordering
    ensures { ComparesShort (ground_tree x.now) (part_tree b.now) result }
{
    match b {
        Part::Ground(y) => ground_order(x, y),
        _ => ground_tag(x).cmp(&part_tag(b)),
    }
}

fn fresh_order(x: &Digest, b: &Part) -> Ordering
    ensures { ComparesAs part (leaf (fresh x.now.0)) (part_tree b.now) result }
{
    match b {
        Part::Fresh(y) => digest_order(x, y),
        _ => 0x15.cmp(&part_tag(b)),
    }
}

fn var_order(i: u32, b: &Part) -> Ordering
    ensures { ComparesAs part (leaf (var i)) (part_tree b.now) result }
{
    match b {
        Part::Var(j) => index_order(i, *j),
        _ => 0x16.cmp(&part_tag(b)),
    }
}

fn name_var_order(i: u32, b: &Part) -> Ordering
    ensures { ComparesAs part (leaf (name_var i)) (part_tree b.now) result }
{
    match b {
        Part::NameVar(j) => index_order(i, *j),
        _ => 0x17.cmp(&part_tag(b)),
    }
}

#[cycle(order)]
fn list_order(xs: &[Term], b: &Part) -> Ordering
    ensures { ComparesAs part (many list xs.now) (part_tree b.now) result }
{
    match b {
        Part::List(ys) => then_terms(Ordering::Equal, xs, ys),
        _ => 0x20.cmp(&part_tag(b)),
    }
}

#[cycle(order)]
fn tuple_order(xs: &[Term], b: &Part) -> Ordering
    ensures { ComparesAs part (many tuple xs.now) (part_tree b.now) result }
{
    match b {
        Part::Tuple(ys) => then_terms(Ordering::Equal, xs, ys),
        _ => 0x21.cmp(&part_tag(b)),
    }
}

#[cycle(order)]
fn set_order(xs: &[Term], b: &Part) -> Ordering
    ensures { ComparesAs part (many set xs.now) (part_tree b.now) result }
{
    match b {
        Part::Set(ys) => then_terms(Ordering::Equal, xs, ys),
        _ => 0x22.cmp(&part_tag(b)),
    }
}

#[cycle(order)]
fn map_order(xs: &[(Term, Term)], b: &Part) -> Ordering
    ensures { ComparesAs part (many dict (map pair_tree xs.now)) (part_tree b.now) result }
{
    match b {
        Part::Map(ys) => pairs_order(xs, ys),
        _ => 0x23.cmp(&part_tag(b)),
    }
}

#[cycle(order)]
fn send_order(channel: &Term, args: &[Term], persistent: bool, b: &Part) -> Ordering
    ensures { ComparesAs part (two (send persistent) channel.now (many row args.now)) (part_tree b.now) result }
{
    match b {
        Part::Send {
            channel: other_channel,
            args: other_args,
            persistent: other_persistent,
        } => {
            let by_flag = flag_order(persistent, *other_persistent);
            let by_channel = then_term(by_flag, channel, other_channel);
            then_terms(by_channel, args, other_args)
        }
        _ => 0x30.cmp(&part_tag(b)),
    }
}

#[cycle(order)]
fn receive_order(kind: Kind, binds: &[TermBind], body: &Term, b: &Part) -> Ordering
    ensures { ComparesAs part (two (receive kind) (many row (map bind_tree binds.now)) body.now) (part_tree b.now) result }
{
    match b {
        Part::Receive {
            kind: other_kind,
            binds: other_binds,
            body: other_body,
        } => {
            let by_kind = kind_order(kind, *other_kind);
            let by_binds = then_binds(by_kind, binds, other_binds);
            then_term(by_binds, body, other_body)
        }
        _ => 0x31.cmp(&part_tag(b)),
    }
}

#[cycle(order)]
fn new_order(names: &[Origin], body: &Term, b: &Part) -> Ordering
    ensures { ComparesAs part (one (new names.now) body.now) (part_tree b.now) result }
{
    match b {
        Part::New {
            names: other_names,
            body: other_body,
        } => {
            let by_names = origins_order(names, other_names);
            then_term(by_names, body, other_body)
        }
        _ => 0x32.cmp(&part_tag(b)),
    }
}

#[cycle(order)]
fn match_order(target: &Term, cases: &[TermCase], b: &Part) -> Ordering
    ensures { ComparesAs part (two match target.now (many row (map case_tree cases.now))) (part_tree b.now) result }
{
    match b {
        Part::Match {
            target: other_target,
            cases: other_cases,
        } => {
            let by_target = term_order(target, other_target);
            then_cases(by_target, cases, other_cases)
        }
        _ => 0x33.cmp(&part_tag(b)),
    }
}

#[cycle(order)]
fn bundle_order(rights: Rights, body: &Term, b: &Part) -> Ordering
    ensures { ComparesAs part (one (bundle rights) body.now) (part_tree b.now) result }
{
    match b {
        Part::Bundle {
            rights: other_rights,
            body: other_body,
        } => {
            let by_rights = rights_order(rights, *other_rights);
            then_term(by_rights, body, other_body)
        }
        _ => 0x34.cmp(&part_tag(b)),
    }
}

#[cycle(order)]
fn unary_order(op: UnaryOp, arg: &Term, b: &Part) -> Ordering
    ensures { ComparesAs part (one (unary op) arg.now) (part_tree b.now) result }
{
    match b {
        Part::Unary {
            op: other_op,
            arg: other_arg,
        } => {
            let by_op = unary_op_order(op, *other_op);
            then_term(by_op, arg, other_arg)
        }
        _ => 0x40.cmp(&part_tag(b)),
    }
}

#[cycle(order)]
fn binary_order(op: BinaryOp, left: &Term, right: &Term, b: &Part) -> Ordering
    ensures { ComparesAs part (two (binary op) left.now right.now) (part_tree b.now) result }
{
    match b {
        Part::Binary {
            op: other_op,
            left: other_left,
            right: other_right,
        } => {
            let by_op = binary_op_order(op, *other_op);
            let by_left = then_term(by_op, left, other_left);
            then_term(by_left, right, other_right)
        }
        _ => 0x41.cmp(&part_tag(b)),
    }
}

#[cycle(order)]
fn method_order(name: &[u8], target: &Term, args: &[Term], b: &Part) -> Ordering
    ensures { ComparesAs part (two (method name.now) target.now (many row args.now)) (part_tree b.now) result }
{
    match b {
        Part::Method {
            name: other_name,
            target: other_target,
            args: other_args,
        } => {
            let by_name = text_order(name, other_name.as_bytes());
            let by_target = then_term(by_name, target, other_target);
            then_terms(by_target, args, other_args)
        }
        _ => 0x42.cmp(&part_tag(b)),
    }
}
