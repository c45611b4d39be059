// Which ground values and closed forms are congruent, and which ground values are of a kind.
ghost use Rattle.std.specs.Prelude.{◌≡◌, IfOk, string_bytes};
ghost use Rattle.calculus.specs.Congruence.{congruent, same_label};
ghost use Rattle.calculus.specs.Form.{term};
ghost use Rattle.calculus.specs.Matching.{of_kind};
ghost use Rattle.calculus.specs.Meaning.{ground_label};
ghost use Rattle.calculus.specs.Shape.{label_of, only};
ghost use Rattle.calculus.specs.Tree.{bool, bytes, int, plain, str, uri};
ghost use Rattle.rho_term.specs.Normal.{IsOrdered};
ghost use Rattle.rho_term.specs.Parts.{ground_tree, part_tree};
ghost use Rattle.match_targets.specs.Targets.{Ready};

use calculus::{Ground, Simple};
use rho_term::{Part, Term};
use std::alloc::{AllocError, Global};
use term_order::cmp_terms;

/// Whether a part is a ground value of this kind.
pub fn is_of_kind(kind: Simple, target: &Part) -> bool
    ensures { result ≡ of_kind kind (label_of (part_tree target.now)) }
{
    match target {
        Part::Ground(value) => is_value_of_kind(kind, value),
        _ => false,
    }
}

fn is_value_of_kind(kind: Simple, value: &Ground) -> bool
    ensures { result ≡ of_kind kind (ground_label value.now) }
{
    match kind {
        Simple::Bool => matches!(value, Ground::Bool(_)),
        Simple::Int => matches!(value, Ground::Int(_)),
        Simple::Str => matches!(value, Ground::Str(_)),
        Simple::Uri => matches!(value, Ground::Uri(_)),
        Simple::Bytes => matches!(value, Ground::Bytes(_)),
    }
}

/// Whether a part is this ground value.
pub fn same_ground(value: &Ground, target: &Part) -> bool
    ensures { result ≡ congruent (ground_tree value.now) (part_tree target.now) }
{
    match target {
        Part::Ground(other) => same_value(value, other),
        _ => false,
    }
}

fn same_value(a: &Ground, b: &Ground) -> bool
    ensures { result ≡ same_label (ground_label a.now) (ground_label b.now) }
{
    match a {
        Ground::Bool(x) => same_bool(*x, b),
        Ground::Int(x) => same_int(*x, b),
        Ground::Str(x) => same_str(x, b),
        Ground::Uri(x) => same_uri(x, b),
        Ground::Bytes(x) => same_bytes(x, b),
    }
}

fn same_bool(x: bool, b: &Ground) -> bool
    ensures { result ≡ same_label (bool x) (ground_label b.now) }
{
    match b {
        Ground::Bool(y) => x == *y,
        _ => false,
    }
}

fn same_int(x: i64, b: &Ground) -> bool
    ensures { result ≡ same_label (int x) (ground_label b.now) }
{
    match b {
        Ground::Int(y) => x == *y,
        _ => false,
    }
}

fn same_str(x: &String, b: &Ground) -> bool
    ensures { result ≡ same_label (str (string_bytes x.now)) (ground_label b.now) }
{
    match b {
        Ground::Str(y) => x.as_str() == y.as_str(),
        _ => false,
    }
}

fn same_uri(x: &String, b: &Ground) -> bool
    ensures { result ≡ same_label (uri (string_bytes x.now)) (ground_label b.now) }
{
    match b {
        Ground::Uri(y) => x.as_str() == y.as_str(),
        _ => false,
    }
}

fn same_bytes(x: &Vec<u8>, b: &Ground) -> bool
    ensures { result ≡ same_label (bytes x.now.items) (ground_label b.now) }
{
    match b {
        Ground::Bytes(y) => x.as_slice() == y.as_slice(),
        _ => false,
    }
}

/// Whether two closed forms are congruent.
pub fn same_closed(alloc: Global, form: &Part, target: &Part) -> Result<bool, AllocError>
    requires form { Ready term (only (part_tree form.now)) }
    requires form_order { IsOrdered (part_tree form.now) }
    requires target { Ready term (only (part_tree target.now)) }
    requires target_order { IsOrdered (part_tree target.now) }
    ensures { IfOk result (λ b. b ≡ congruent (part_tree form.now) (part_tree target.now)) }
{
    if form_number(form) != form_number(target) {
        return Ok(false);
    }
    let left = Term::from_part(alloc, form.copy(alloc)?)?;
    let right = Term::from_part(alloc, target.copy(alloc)?)?;
    Ok(cmp_terms(&left, &right).is_eq())
}

// A number for each form of a part.
fn form_number(part: &Part) -> u8
    ensures { result ≡ (plain (label_of (part_tree part.now))).0 }
{
    match part {
        Part::Ground(value) => ground_number(value),
        Part::Fresh(_) => 7,
        Part::Var(_) => 8,
        Part::NameVar(_) => 9,
        Part::List(_) => 10,
        Part::Tuple(_) => 11,
        Part::Set(_) => 12,
        Part::Map(_) => 13,
        Part::Send { .. } => 15,
        Part::Receive { .. } => 16,
        Part::New { .. } => 18,
        Part::Match { .. } => 19,
        Part::Bundle { .. } => 21,
        Part::Unary { .. } => 22,
        Part::Binary { .. } => 23,
        Part::Method { .. } => 24,
    }
}

fn ground_number(value: &Ground) -> u8
    ensures { result ≡ (plain (ground_label value.now)).0 }
{
    match value {
        Ground::Bool(_) => 2,
        Ground::Int(_) => 3,
        Ground::Str(_) => 4,
        Ground::Uri(_) => 5,
        Ground::Bytes(_) => 6,
    }
}
