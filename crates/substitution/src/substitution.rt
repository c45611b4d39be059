// Other variables, or closed values, in place of the variables that are bound around a process.

ghost use Rattle.std.specs.Prelude.{◌≡◌, false, map, IfOk};
ghost use Rattle.calculus.specs.Substitution.{put};
ghost use Rattle.rho_term.specs.Parts.{part_tree, pat_part_tree, pair_tree, bind_tree, case_tree};
ghost use Rattle.term_bounds.specs.Filled.{IsForm};
ghost use Rattle.substitution.specs.Becoming.{Becomes, AllBecome, Grows, change_of};

use crate::maker::Maker;
use crate::variable::{Replacement, Sense, put_variable};
use rho_term::{Part, PatPart, Term, TermBind, TermCase, TermPat, with_room};
use std::alloc::{AllocError, Global};
use term_bounds::{binds_bound, pat_bound, plus, term_bound};

/// The process with these values in place of the variables that are bound around it, the first value
/// for the first one bound, in normal order. The parts of a value join the parts around the variable;
/// a variable without a value leaves none.
///
/// Nothing is renumbered, so the values are to be closed. Want of memory is the one error.
pub fn substitute(alloc: Global, body: &Term, values: &[Term]) -> Result<Term, AllocError>
    ensures { IfOk result (λ t. t ≡ put values.now body.now) }
{
    let replacement = Replacement::Values(values);
    replaced(alloc, body, &replacement)
}

/// The process with what comes in place of the variables that are bound around it, in normal order.
pub(crate) fn replaced(
    alloc: Global,
    term: &Term,
    replacement: &Replacement,
) -> Result<Term, AllocError>
    ensures { IfOk result (λ t. Becomes (change_of replacement.now) 0 term.now t) }
{
    let mut maker = Maker::new(alloc);
    let depth = 0;
    let term = put_term(&mut maker, term, replacement, depth);
    maker.made(term)
}

// A process, under this many inner variables.
#[cycle(put)]
fn put_term(maker: &mut Maker, term: &Term, replacement: &Replacement, depth: u64) -> Term
    ensures { maker.new.failed ≡ false → (maker.old.failed ≡ false) × Becomes (change_of replacement.now) depth term.now result }
{
    let mut parts = with_room(maker.alloc, term.parts().len());
    for part in term.parts() {
        put_part(maker, &mut parts, part, replacement, depth);
    }
    maker.process(parts)
}

// A part of a process, at the end of these: it becomes one part, or the parts of a value.
#[cycle(put)]
fn put_part(
    maker: &mut Maker,
    out: &mut Vec<Part>,
    part: &Part,
    replacement: &Replacement,
    depth: u64,
)
    ensures { maker.new.failed ≡ false → (maker.old.failed ≡ false) ×
        Grows part_tree (change_of replacement.now) depth (part_tree part.now) out.old.items out.new.items }
{
    match part {
        Part::Var(index) => put_variable(maker, out, Sense::Process, *index, replacement, depth),
        Part::NameVar(index) => put_variable(maker, out, Sense::Name, *index, replacement, depth),
        form => {
            let made = put_form(maker, form, replacement, depth);
            maker.add(out, made);
        }
    }
}

// A part that is no variable.
#[cycle(put)]
fn put_form(maker: &mut Maker, part: &Part, replacement: &Replacement, depth: u64) -> Part
    ensures { maker.new.failed ≡ false → (maker.old.failed ≡ false) × (IsForm (part_tree part.now) →
        Becomes (change_of replacement.now) depth (part_tree part.now) (part_tree result)) }
{
    match part {
        Part::Ground(value) => Part::Ground(maker.ground(value)),
        Part::Fresh(name) => Part::Fresh(*name),
        Part::Var(index) => Part::Var(*index),
        Part::NameVar(index) => Part::NameVar(*index),
        Part::List(members) => Part::List(put_terms(maker, members, replacement, depth)),
        Part::Tuple(members) => Part::Tuple(put_terms(maker, members, replacement, depth)),
        Part::Set(members) => {
            let members = put_terms(maker, members, replacement, depth);
            maker.set(members)
        }
        Part::Map(pairs) => {
            let pairs = put_pairs(maker, pairs, replacement, depth);
            maker.map(pairs)
        }
        Part::Send {
            channel,
            args,
            persistent,
        } => {
            let channel = put_term(maker, channel, replacement, depth);
            let args = put_terms(maker, args, replacement, depth);
            let persistent = *persistent;
            Part::Send {
                channel,
                args,
                persistent,
            }
        }
        Part::Receive { kind, binds, body } => {
            let bound = plus(binds_bound(binds), term_bound(body));
            let inner = plus(depth, bound);
            let binds = put_binds(maker, binds, replacement, depth);
            let body = put_term(maker, body, replacement, inner);
            let kind = *kind;
            Part::Receive { kind, binds, body }
        }
        Part::New { names, body } => {
            let inner = plus(depth, names.len() as u64);
            let names = maker.names(names);
            let body = put_term(maker, body, replacement, inner);
            Part::New { names, body }
        }
        Part::Match { target, cases } => {
            let target = put_term(maker, target, replacement, depth);
            let cases = put_cases(maker, cases, replacement, depth);
            Part::Match { target, cases }
        }
        Part::Bundle { rights, body } => {
            let body = put_term(maker, body, replacement, depth);
            let rights = *rights;
            Part::Bundle { rights, body }
        }
        Part::Unary { op, arg } => {
            let arg = put_term(maker, arg, replacement, depth);
            let op = *op;
            Part::Unary { op, arg }
        }
        Part::Binary { op, left, right } => {
            let left = put_term(maker, left, replacement, depth);
            let right = put_term(maker, right, replacement, depth);
            let op = *op;
            Part::Binary { op, left, right }
        }
        Part::Method { name, target, args } => {
            let name = maker.text(name);
            let target = put_term(maker, target, replacement, depth);
            let args = put_terms(maker, args, replacement, depth);
            Part::Method { name, target, args }
        }
    }
}

// Processes, each in its place.
#[cycle(put)]
fn put_terms(
    maker: &mut Maker,
    terms: &Vec<Term>,
    replacement: &Replacement,
    depth: u64,
) -> Vec<Term>
    ensures { maker.new.failed ≡ false → (maker.old.failed ≡ false) ×
        AllBecome (change_of replacement.now) depth terms.now.items result.items }
{
    let mut filled = with_room(maker.alloc, terms.len());
    for term in terms {
        let made = put_term(maker, term, replacement, depth);
        maker.add(&mut filled, made);
    }
    filled
}

// Pairs of a map, each in its place.
#[cycle(put)]
fn put_pairs(
    maker: &mut Maker,
    pairs: &Vec<(Term, Term)>,
    replacement: &Replacement,
    depth: u64,
) -> Vec<(Term, Term)>
    ensures { maker.new.failed ≡ false → (maker.old.failed ≡ false) ×
        AllBecome (change_of replacement.now) depth (map pair_tree pairs.now.items) (map pair_tree result.items) }
{
    let mut filled = with_room(maker.alloc, pairs.len());
    for pair in pairs {
        let key = put_term(maker, &pair.0, replacement, depth);
        let value = put_term(maker, &pair.1, replacement, depth);
        maker.add(&mut filled, (key, value));
    }
    filled
}

// Binds of a receive, each in its place. Their variables are not yet bound in them.
#[cycle(put)]
fn put_binds(
    maker: &mut Maker,
    binds: &Vec<TermBind>,
    replacement: &Replacement,
    depth: u64,
) -> Vec<TermBind>
    ensures { maker.new.failed ≡ false → (maker.old.failed ≡ false) ×
        AllBecome (change_of replacement.now) depth (map bind_tree binds.now.items) (map bind_tree result.items) }
{
    let mut filled = with_room(maker.alloc, binds.len());
    for bind in binds {
        let channel = put_term(maker, &bind.channel, replacement, depth);
        let pats = put_pats(maker, &bind.pats, replacement, depth);
        let rest = bind.rest;
        let made = TermBind {
            pats,
            rest,
            channel,
        };
        maker.add(&mut filled, made);
    }
    filled
}

// Cases of a match, each in its place. The variables of a pattern are bound in its body.
#[cycle(put)]
fn put_cases(
    maker: &mut Maker,
    cases: &Vec<TermCase>,
    replacement: &Replacement,
    depth: u64,
) -> Vec<TermCase>
    ensures { maker.new.failed ≡ false → (maker.old.failed ≡ false) ×
        AllBecome (change_of replacement.now) depth (map case_tree cases.now.items) (map case_tree result.items) }
{
    let mut filled = with_room(maker.alloc, cases.len());
    for case in cases {
        let bound = plus(pat_bound(&case.pat), term_bound(&case.body));
        let inner = plus(depth, bound);
        let pat = put_pat(maker, &case.pat, replacement, depth);
        let body = put_term(maker, &case.body, replacement, inner);
        maker.add(&mut filled, TermCase { pat, body });
    }
    filled
}

// A pattern, under this many inner variables.
#[cycle(put)]
fn put_pat(maker: &mut Maker, pat: &TermPat, replacement: &Replacement, depth: u64) -> TermPat
    ensures { maker.new.failed ≡ false → (maker.old.failed ≡ false) × Becomes (change_of replacement.now) depth pat.now result }
{
    let mut parts = with_room(maker.alloc, pat.parts().len());
    for part in pat.parts() {
        put_pat_part(maker, &mut parts, part, replacement, depth);
    }
    maker.pattern(parts)
}

// A part of a pattern, at the end of these. A closed form becomes what it becomes as a part of a process.
#[cycle(put)]
fn put_pat_part(
    maker: &mut Maker,
    out: &mut Vec<PatPart>,
    part: &PatPart,
    replacement: &Replacement,
    depth: u64,
)
    ensures { maker.new.failed ≡ false → (maker.old.failed ≡ false) ×
        Grows pat_part_tree (change_of replacement.now) depth (pat_part_tree part.now) out.old.items out.new.items }
{
    match part {
        PatPart::Closed(closed) => {
            let mut parts = Vec::new(maker.alloc);
            put_part(maker, &mut parts, closed, replacement, depth);
            maker.add_closed(out, parts);
        }
        form => {
            let made = put_pat_form(maker, form, replacement, depth);
            maker.add(out, made);
        }
    }
}

// A part of a pattern that is no variable of a process.
#[cycle(put)]
fn put_pat_form(maker: &mut Maker, part: &PatPart, replacement: &Replacement, depth: u64) -> PatPart
    ensures { maker.new.failed ≡ false → (maker.old.failed ≡ false) × (IsForm (pat_part_tree part.now) →
        Becomes (change_of replacement.now) depth (pat_part_tree part.now) (pat_part_tree result)) }
{
    match part {
        PatPart::Wild => PatPart::Wild,
        PatPart::Var => PatPart::Var,
        PatPart::NameVar => PatPart::NameVar,
        PatPart::Simple(kind) => PatPart::Simple(*kind),
        PatPart::Same(process) => PatPart::Same(put_term(maker, process, replacement, depth)),
        PatPart::Ground(value) => PatPart::Ground(maker.ground(value)),
        PatPart::Both(left, right) => {
            let left = put_pat(maker, left, replacement, depth);
            let right = put_pat(maker, right, replacement, depth);
            PatPart::Both(left, right)
        }
        PatPart::Either(left, right) => {
            let left = put_pat(maker, left, replacement, depth);
            let right = put_pat(maker, right, replacement, depth);
            PatPart::Either(left, right)
        }
        PatPart::Not(inner) => PatPart::Not(put_pat(maker, inner, replacement, depth)),
        PatPart::List(members, rest) => {
            PatPart::List(put_pats(maker, members, replacement, depth), *rest)
        }
        PatPart::Tuple(members) => PatPart::Tuple(put_pats(maker, members, replacement, depth)),
        PatPart::Set(members, rest) => {
            PatPart::Set(put_pats(maker, members, replacement, depth), *rest)
        }
        PatPart::Map(pairs, rest) => {
            PatPart::Map(put_pat_pairs(maker, pairs, replacement, depth), *rest)
        }
        PatPart::Send {
            channel,
            args,
            persistent,
        } => {
            let channel = put_pat(maker, channel, replacement, depth);
            let args = put_pats(maker, args, replacement, depth);
            let persistent = *persistent;
            PatPart::Send {
                channel,
                args,
                persistent,
            }
        }
        PatPart::Bundle { rights, body } => {
            let body = put_pat(maker, body, replacement, depth);
            let rights = *rights;
            PatPart::Bundle { rights, body }
        }
        PatPart::Closed(closed) => PatPart::Closed(put_form(maker, closed, replacement, depth)),
    }
}

// Patterns, each in its place.
#[cycle(put)]
fn put_pats(
    maker: &mut Maker,
    pats: &Vec<TermPat>,
    replacement: &Replacement,
    depth: u64,
) -> Vec<TermPat>
    ensures { maker.new.failed ≡ false → (maker.old.failed ≡ false) ×
        AllBecome (change_of replacement.now) depth pats.now.items result.items }
{
    let mut filled = with_room(maker.alloc, pats.len());
    for pat in pats {
        let made = put_pat(maker, pat, replacement, depth);
        maker.add(&mut filled, made);
    }
    filled
}

// Pairs of a pattern of a map, each in its place.
#[cycle(put)]
fn put_pat_pairs(
    maker: &mut Maker,
    pairs: &Vec<(TermPat, TermPat)>,
    replacement: &Replacement,
    depth: u64,
) -> Vec<(TermPat, TermPat)>
    ensures { maker.new.failed ≡ false → (maker.old.failed ≡ false) ×
        AllBecome (change_of replacement.now) depth (map pair_tree pairs.now.items) (map pair_tree result.items) }
{
    let mut filled = with_room(maker.alloc, pairs.len());
    for pair in pairs {
        let key = put_pat(maker, &pair.0, replacement, depth);
        let value = put_pat(maker, &pair.1, replacement, depth);
        maker.add(&mut filled, (key, value));
    }
    filled
}
