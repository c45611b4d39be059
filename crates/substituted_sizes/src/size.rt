// The height and the code length of a process with values put in, without making it.

ghost use Rattle.std.specs.Prelude.{◌≡◌, ℕ, ◌+◌, ◌-◌, ◌<◌, ◌≤◌, max, reverse, map, length};
ghost use Rattle.calculus.specs.Code.{code};
ghost use Rattle.calculus.specs.Shape.{at, held};
ghost use Rattle.calculus.specs.Size.{height, heights};
ghost use Rattle.calculus.specs.Substitution.{put};
ghost use Rattle.calculus.specs.Tree.{trees};
ghost use Rattle.rho_term.specs.Measures.{in_u32};
ghost use Rattle.rho_term.specs.Parts.{part_tree, pat_part_tree, ground_tree, pair_tree, bind_tree, case_tree};
ghost use Rattle.rho_term.specs.Sizes.{in_u64, size, sizes};
ghost use Rattle.term_bounds.specs.Filled.{IsForm};
ghost use Rattle.substituted_sizes.specs.Extent.{filled_height, filled_size, IsHeight, IsLength, AreHeights, AreLengths};

use calculus::Ground;
use rho_term::{Part, PatPart, Term, TermBind, TermCase, TermPat};
use term_bounds::{binds_bound, pat_bound, plus, term_bound};
use term_encoder::code_len;

/// The height and the code length in bytes of the process that `substitute` makes of this body and
/// these values, each the greatest number of its type where it is greater. It takes no memory.
///
/// A value is not walked: it keeps its height and its length.
pub fn put_size(body: &Term, values: &[Term]) -> (u32, u64)
    ensures height { result.0 ≡ in_u32 (height (put values.now body.now)) }
    ensures length { result.1 ≡ in_u64 (length (code (put values.now body.now))) }
{
    let depth = 0;
    let _parts = body.parts();
    let extent = term_extent(body, values, depth);
    (extent.height, extent.length)
}

// A height and a code length.
#[derive(Clone, Copy)]
struct Extent {
    height: u32,
    length: u64,
}

// A leaf of this many bytes.
fn leaf(length: u64) -> Extent
    ensures height { result.height ≡ 0 }
    ensures length { result.length ≡ length }
{
    Extent { height: 0, length }
}

// The greater height, and the lengths together.
fn join(a: Extent, b: Extent) -> Extent
    ensures height { result.height ≡ max a.height b.height }
    ensures length { result.length ≡ in_u64 (a.length + b.length) }
{
    Extent {
        height: a.height.max(b.height),
        length: plus(a.length, b.length),
    }
}

// A form with this many bytes beside its constituents, one higher than they are.
fn above(length: u64, inner: Extent) -> Extent
    ensures height { result.height ≡ in_u32 (inner.height + 1) }
    ensures length { result.length ≡ in_u64 (length + inner.length) }
{
    Extent {
        height: inner.height.saturating_add(1),
        length: plus(length, inner.length),
    }
}

// The same height, with this many bytes more.
fn with(length: u64, inner: Extent) -> Extent
    ensures height { result.height ≡ inner.height }
    ensures length { result.length ≡ in_u64 (length + inner.length) }
{
    Extent {
        height: inner.height,
        length: plus(length, inner.length),
    }
}

// A process, under this many inner variables.
#[cycle(extent)]
fn term_extent(term: &Term, values: &[Term], depth: u64) -> Extent
    ensures height { IsHeight values.now depth term.now result.height }
    ensures length { IsLength values.now depth term.now result.length }
{
    let parts = term.parts();
    let mut total = leaf(4);
    for part in parts {
        total = add_part(total, part, values, depth);
    }
    total
}

// These, and what a part of a process becomes.
#[cycle(extent)]
fn add_part(total: Extent, part: &Part, values: &[Term], depth: u64) -> Extent
    requires { 4 ≤ total.length }
    ensures height { (d : ℕ) → in_u64 d ≡ depth → result.height ≡
        max total.height (in_u32 (filled_height values.now d (part_tree part.now))) }
    ensures length { (d : ℕ) → in_u64 d ≡ depth → result.length ≡ in_u64 (total.length + filled_size values.now d (part_tree part.now)) }
{
    match part {
        Part::Var(index) => add_variable(total, *index, values, depth),
        Part::NameVar(index) => add_variable(total, *index, values, depth),
        form => join(total, form_extent(form, values, depth)),
    }
}

// These, and a use of the variable of this index or the parts of its value.
fn add_variable(total: Extent, index: u32, values: &[Term], depth: u64) -> Extent
    requires { 4 ≤ total.length }
    ensures inner_height { index < depth → result.height ≡ total.height }
    ensures inner_length { index < depth → result.length ≡ in_u64 (total.length + 5) }
    ensures outer_height { depth ≤ index → result.height ≡
        max total.height (in_u32 (heights (trees (held (at (index - depth) (reverse values.now)))))) }
    ensures outer_length { depth ≤ index → result.length ≡
        in_u64 (total.length + sizes (trees (held (at (index - depth) (reverse values.now))))) }
{
    let index = index as u64;
    if index < depth {
        return with(5, total);
    }
    let place = index - depth;
    if place >= values.len() as u64 {
        return with(0, total);
    }
    add_value(total, &values[values.len() - 1 - place as usize])
}

// These, and the parts of a value: its code without the number of its parts.
fn add_value(total: Extent, value: &Term) -> Extent
    requires { 4 ≤ total.length }
    ensures height { result.height ≡ max total.height (in_u32 (heights (trees (held value.now)))) }
    ensures length { result.length ≡ in_u64 (total.length + sizes (trees (held value.now))) }
{
    let _parts = value.parts();
    Extent {
        height: total.height.max(value.height()),
        length: plus(total.length - 4, code_len(value)),
    }
}

// A part of a process that is no variable.
#[cycle(extent)]
fn form_extent(part: &Part, values: &[Term], depth: u64) -> Extent
    ensures height { IsForm (part_tree part.now) → IsHeight values.now depth (part_tree part.now) result.height }
    ensures length { IsForm (part_tree part.now) → IsLength values.now depth (part_tree part.now) result.length }
{
    match part {
        Part::Ground(value) => leaf(ground_len(value)),
        Part::Fresh(name) => leaf(fresh_len(&name.0)),
        Part::Var(_) => leaf(5),
        Part::NameVar(_) => leaf(5),
        Part::List(members) => above(5, terms_extent(members, values, depth)),
        Part::Tuple(members) => above(5, terms_extent(members, values, depth)),
        Part::Set(members) => above(5, terms_extent(members, values, depth)),
        Part::Map(pairs) => above(5, pairs_extent(pairs, values, depth)),
        Part::Send { channel, args, .. } => {
            let channel = term_extent(channel, values, depth);
            above(6, join(channel, terms_extent(args, values, depth)))
        }
        Part::Receive { binds, body, .. } => {
            let bound = plus(binds_bound(binds), term_bound(body));
            let inner = plus(depth, bound);
            let body = term_extent(body, values, inner);
            above(6, join(binds_extent(binds, values, depth), body))
        }
        Part::New { names, body } => {
            let inner = plus(depth, names.len() as u64);
            let body = term_extent(body, values, inner);
            above(plus(5, names.len() as u64), body)
        }
        Part::Match { target, cases } => {
            let target = term_extent(target, values, depth);
            above(5, join(target, cases_extent(cases, values, depth)))
        }
        Part::Bundle { body, .. } => above(2, term_extent(body, values, depth)),
        Part::Unary { arg, .. } => above(2, term_extent(arg, values, depth)),
        Part::Binary { left, right, .. } => {
            let left = term_extent(left, values, depth);
            above(2, join(left, term_extent(right, values, depth)))
        }
        Part::Method { name, target, args } => {
            let target = term_extent(target, values, depth);
            let inner = join(target, terms_extent(args, values, depth));
            above(plus(9, name.as_str().len() as u64), inner)
        }
    }
}

// A pattern, under this many inner variables.
#[cycle(extent)]
fn pat_extent(pat: &TermPat, values: &[Term], depth: u64) -> Extent
    ensures height { IsHeight values.now depth pat.now result.height }
    ensures length { IsLength values.now depth pat.now result.length }
{
    let parts = pat.parts();
    let mut total = leaf(4);
    for part in parts {
        total = add_pat_part(total, part, values, depth);
    }
    total
}

// These, and what a part of a pattern becomes.
#[cycle(extent)]
fn add_pat_part(total: Extent, part: &PatPart, values: &[Term], depth: u64) -> Extent
    requires { 4 ≤ total.length }
    ensures height { (d : ℕ) → in_u64 d ≡ depth → result.height ≡
        max total.height (in_u32 (filled_height values.now d (pat_part_tree part.now))) }
    ensures length { (d : ℕ) → in_u64 d ≡ depth → result.length ≡
        in_u64 (total.length + filled_size values.now d (pat_part_tree part.now)) }
{
    match part {
        PatPart::Closed(closed) => add_part(total, closed, values, depth),
        form => join(total, pat_form_extent(form, values, depth)),
    }
}

// A part of a pattern that is no variable of a process.
#[cycle(extent)]
fn pat_form_extent(part: &PatPart, values: &[Term], depth: u64) -> Extent
    ensures height { IsForm (pat_part_tree part.now) → IsHeight values.now depth (pat_part_tree part.now) result.height }
    ensures length { IsForm (pat_part_tree part.now) → IsLength values.now depth (pat_part_tree part.now) result.length }
{
    match part {
        PatPart::Wild => leaf(1),
        PatPart::Var => leaf(1),
        PatPart::NameVar => leaf(1),
        PatPart::Simple(_) => leaf(2),
        PatPart::Same(process) => above(1, term_extent(process, values, depth)),
        PatPart::Ground(value) => leaf(ground_len(value)),
        PatPart::Both(left, right) => {
            let left = pat_extent(left, values, depth);
            above(1, join(left, pat_extent(right, values, depth)))
        }
        PatPart::Either(left, right) => {
            let left = pat_extent(left, values, depth);
            above(1, join(left, pat_extent(right, values, depth)))
        }
        PatPart::Not(inner) => above(1, pat_extent(inner, values, depth)),
        PatPart::List(members, _) => above(6, pats_extent(members, values, depth)),
        PatPart::Tuple(members) => above(5, pats_extent(members, values, depth)),
        PatPart::Set(members, _) => above(6, pats_extent(members, values, depth)),
        PatPart::Map(pairs, _) => above(6, pat_pairs_extent(pairs, values, depth)),
        PatPart::Send { channel, args, .. } => {
            let channel = pat_extent(channel, values, depth);
            above(6, join(channel, pats_extent(args, values, depth)))
        }
        PatPart::Bundle { body, .. } => above(2, pat_extent(body, values, depth)),
        PatPart::Closed(closed) => form_extent(closed, values, depth),
    }
}

// Processes, each in its place.
#[cycle(extent)]
fn terms_extent(terms: &Vec<Term>, values: &[Term], depth: u64) -> Extent
    ensures height { AreHeights values.now depth terms.now.items result.height }
    ensures length { AreLengths values.now depth terms.now.items result.length }
{
    let mut total = leaf(0);
    for term in terms {
        total = join(total, term_extent(term, values, depth));
    }
    total
}

// Pairs of a map, each in its place.
#[cycle(extent)]
fn pairs_extent(pairs: &Vec<(Term, Term)>, values: &[Term], depth: u64) -> Extent
    ensures height { AreHeights values.now depth (map pair_tree pairs.now.items) result.height }
    ensures length { AreLengths values.now depth (map pair_tree pairs.now.items) result.length }
{
    let mut total = leaf(0);
    for pair in pairs {
        let key = term_extent(&pair.0, values, depth);
        let value = term_extent(&pair.1, values, depth);
        total = join(total, join(key, value));
    }
    total
}

// Binds of a receive, each in its place.
#[cycle(extent)]
fn binds_extent(binds: &Vec<TermBind>, values: &[Term], depth: u64) -> Extent
    ensures height { AreHeights values.now depth (map bind_tree binds.now.items) result.height }
    ensures length { AreLengths values.now depth (map bind_tree binds.now.items) result.length }
{
    let mut total = leaf(0);
    for bind in binds {
        let channel = term_extent(&bind.channel, values, depth);
        let pats = with(5, pats_extent(&bind.pats, values, depth));
        total = join(total, join(channel, pats));
    }
    total
}

// Cases of a match, each in its place.
#[cycle(extent)]
fn cases_extent(cases: &Vec<TermCase>, values: &[Term], depth: u64) -> Extent
    ensures height { AreHeights values.now depth (map case_tree cases.now.items) result.height }
    ensures length { AreLengths values.now depth (map case_tree cases.now.items) result.length }
{
    let mut total = leaf(0);
    for case in cases {
        let bound = plus(pat_bound(&case.pat), term_bound(&case.body));
        let inner = plus(depth, bound);
        let pat = pat_extent(&case.pat, values, depth);
        let body = term_extent(&case.body, values, inner);
        total = join(total, join(pat, body));
    }
    total
}

// Patterns, each in its place.
#[cycle(extent)]
fn pats_extent(pats: &Vec<TermPat>, values: &[Term], depth: u64) -> Extent
    ensures height { AreHeights values.now depth pats.now.items result.height }
    ensures length { AreLengths values.now depth pats.now.items result.length }
{
    let mut total = leaf(0);
    for pat in pats {
        total = join(total, pat_extent(pat, values, depth));
    }
    total
}

// Pairs of a pattern of a map, each in its place.
#[cycle(extent)]
fn pat_pairs_extent(pairs: &Vec<(TermPat, TermPat)>, values: &[Term], depth: u64) -> Extent
    ensures height { AreHeights values.now depth (map pair_tree pairs.now.items) result.height }
    ensures length { AreLengths values.now depth (map pair_tree pairs.now.items) result.length }
{
    let mut total = leaf(0);
    for pair in pairs {
        let key = pat_extent(&pair.0, values, depth);
        let value = pat_extent(&pair.1, values, depth);
        total = join(total, join(key, value));
    }
    total
}

fn ground_len(value: &Ground) -> u64
    ensures { result ≡ in_u64 (size (ground_tree value.now)) }
{
    match value {
        Ground::Bool(_) => 2,
        Ground::Int(_) => 9,
        Ground::Str(text) => plus(5, text.as_str().len() as u64),
        Ground::Uri(text) => plus(5, text.as_str().len() as u64),
        Ground::Bytes(bytes) => plus(5, bytes.len() as u64),
    }
}

fn fresh_len(digest: &[u8]) -> u64
    ensures { result ≡ in_u64 (1 + length digest.now) }
{
    plus(1, digest.len() as u64)
}
