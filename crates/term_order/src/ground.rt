// The order of ground values and of the plain data in a form.
ghost use Rattle.std.specs.Prelude.{◌≡◌, ◌<◌, ◌^◌, ◌∷◌, [], ◌+ℤ◌, pos, nat_abs, length, map, string_bytes};
ghost use Rattle.std.specs.Ordering.{nat_cmp};
ghost use Rattle.calculus.specs.Bytes.{be32, be64};
ghost use Rattle.calculus.specs.Code.{code, text, byte_of};
ghost use Rattle.calculus.specs.CodeLaws.{IsShort};
ghost use Rattle.calculus.specs.Kinds.{rest_number, kind_number, rights_number, unary_op_number, binary_op_number, simple_number, origin_number};
ghost use Rattle.calculus.specs.Meaning.{ground_label};
ghost use Rattle.calculus.specs.Order.{byte_cmp};
ghost use Rattle.calculus.specs.Tree.{bool, int, str, uri, bytes, node, none};
ghost use Rattle.calculus.specs.Shape.{leaf};
ghost use Rattle.rho_term.specs.Parts.{ground_tree};
ghost use Rattle.term_order.specs.Orders.{first, ComparesLeaves};

use calculus::{BinaryOp, Digest, Ground, Kind, Origin, Rights, Simple, TermRest, UnaryOp};
use std::cmp::Ordering;

pub(crate) fn ground_order(a: &Ground, b: &Ground) -> Ordering
    ensures { ComparesLeaves (ground_label a.now) (ground_label b.now) result }
{
    match a {
        Ground::Bool(x) => bool_order(*x, b),
        Ground::Int(x) => int_order(*x, b),
        Ground::Str(x) => str_order(x, b),
        Ground::Uri(x) => uri_order(x, b),
        Ground::Bytes(x) => bytes_order(x, b),
    }
}

fn bool_order(x: bool, b: &Ground) -> Ordering
    ensures { ComparesLeaves (bool x) (ground_label b.now) result }
{
    match b {
        Ground::Bool(y) => x.cmp(y),
        _ => 0x10.cmp(&ground_tag(b)),
    }
}

fn int_order(x: i64, b: &Ground) -> Ordering
    ensures { ComparesLeaves (int x) (ground_label b.now) result }
{
    match b {
        Ground::Int(y) => signed_order(x, *y),
        _ => 0x11.cmp(&ground_tag(b)),
    }
}

fn str_order(x: &String, b: &Ground) -> Ordering
    ensures { ComparesLeaves (str (string_bytes x.now)) (ground_label b.now) result }
{
    match b {
        Ground::Str(y) => text_order(x.as_bytes(), y.as_bytes()),
        _ => 0x12.cmp(&ground_tag(b)),
    }
}

fn uri_order(x: &String, b: &Ground) -> Ordering
    ensures { ComparesLeaves (uri (string_bytes x.now)) (ground_label b.now) result }
{
    match b {
        Ground::Uri(y) => text_order(x.as_bytes(), y.as_bytes()),
        _ => 0x13.cmp(&ground_tag(b)),
    }
}

fn bytes_order(x: &Vec<u8>, b: &Ground) -> Ordering
    ensures { ComparesLeaves (bytes x.now.items) (ground_label b.now) result }
{
    match b {
        Ground::Bytes(y) => text_order(x, y),
        _ => 0x14.cmp(&ground_tag(b)),
    }
}

// The first byte of a ground value's code.
pub(crate) fn ground_tag(g: &Ground) -> u8
    ensures { result ≡ first (code (ground_tree g.now)) }
{
    match g {
        Ground::Bool(_) => 0x10,
        Ground::Int(_) => 0x11,
        Ground::Str(_) => 0x12,
        Ground::Uri(_) => 0x13,
        Ground::Bytes(_) => 0x14,
    }
}

// The shorter text is less, and texts of one length stand in the order of their bytes.
pub(crate) fn text_order(x: &[u8], y: &[u8]) -> Ordering
    ensures { length x.now < 2 ^ 32 → length y.now < 2 ^ 32 → result ≡ byte_cmp (text x.now) (text y.now) }
{
    let by_length = x.len().cmp(&y.len());
    if by_length.is_ne() {
        return by_length;
    }
    x.cmp(y)
}

fn signed_order(x: i64, y: i64) -> Ordering
    ensures { result ≡ byte_cmp (be64 (nat_abs (x +ℤ pos (2 ^ 63)))) (be64 (nat_abs (y +ℤ pos (2 ^ 63)))) }
{
    x.cmp(&y)
}

pub(crate) fn index_order(x: u32, y: u32) -> Ordering
    ensures { result ≡ byte_cmp (be32 x) (be32 y) }
{
    x.cmp(&y)
}

pub(crate) fn digest_order(x: &Digest, y: &Digest) -> Ordering
    ensures { result ≡ byte_cmp x.now.0 y.now.0 }
{
    x.0.cmp(&y.0)
}

pub(crate) fn flag_order(x: bool, y: bool) -> Ordering
    ensures { result ≡ nat_cmp (byte_of x) (byte_of y) }
{
    x.cmp(&y)
}

pub(crate) fn kind_order(x: Kind, y: Kind) -> Ordering
    ensures { result ≡ nat_cmp (kind_number x) (kind_number y) }
{
    (x as u8).cmp(&(y as u8))
}

pub(crate) fn rights_order(x: Rights, y: Rights) -> Ordering
    ensures { result ≡ nat_cmp (rights_number x) (rights_number y) }
{
    (x as u8).cmp(&(y as u8))
}

pub(crate) fn unary_op_order(x: UnaryOp, y: UnaryOp) -> Ordering
    ensures { result ≡ nat_cmp (unary_op_number x) (unary_op_number y) }
{
    (x as u8).cmp(&(y as u8))
}

pub(crate) fn binary_op_order(x: BinaryOp, y: BinaryOp) -> Ordering
    ensures { result ≡ nat_cmp (binary_op_number x) (binary_op_number y) }
{
    (x as u8).cmp(&(y as u8))
}

pub(crate) fn simple_order(x: Simple, y: Simple) -> Ordering
    ensures { result ≡ nat_cmp (simple_number x) (simple_number y) }
{
    (x as u8).cmp(&(y as u8))
}

pub(crate) fn rest_order(x: TermRest, y: TermRest) -> Ordering
    ensures { result ≡ nat_cmp (rest_number x) (rest_number y) }
{
    (x as u8).cmp(&(y as u8))
}

fn origin_order(x: Origin, y: Origin) -> Ordering
    ensures { result ≡ nat_cmp (origin_number x) (origin_number y) }
{
    (x as u8).cmp(&(y as u8))
}

// As a text whose bytes are the numbers of the origins.
pub(crate) fn origins_order(xs: &[Origin], ys: &[Origin]) -> Ordering
    ensures { length xs.now < 2 ^ 32 → length ys.now < 2 ^ 32 → result ≡
        byte_cmp (text (map origin_number xs.now)) (text (map origin_number ys.now)) }
{
    let by_length = xs.len().cmp(&ys.len());
    if by_length.is_ne() {
        return by_length;
    }
    for i in 0..xs.len() {
        let order = origin_order(xs[i], ys[i]);
        if order.is_ne() {
            return order;
        }
    }
    Ordering::Equal
}
