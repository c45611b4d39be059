// Terms as their canonical bytes.
ghost use Rattle.std.specs.Prelude.{◌≡◌, map, IfOk};
ghost use Rattle.calculus.specs.Code.{code};
ghost use Rattle.calculus.specs.Tree.{row};
ghost use Rattle.calculus.specs.Shape.{many};
ghost use Rattle.rho_term.specs.Normal.{IsOrdered};
ghost use Rattle.rho_term.specs.Parts.{part_tree, pat_part_tree, pair_tree, bind_tree, case_tree};
ghost use Rattle.term_encoder.specs.Writing.{Writes};

use crate::encoder::Encoder;
use rho_term::{Part, PatPart, Term, TermBind, TermCase, TermPat};
use std::alloc::{AllocError, Global};

/// The code of a process: its canonical bytes, which are equal for congruent closed processes alone.
///
/// Numbers of constituents and lengths of texts stand in four bytes each, modulo 2^32, so this is of
/// use for codes shorter than that. Want of memory is the one error.
pub fn encode_term(alloc: Global, term: &Term) -> Result<Vec<u8>, AllocError>
    ensures { IfOk result (λ v. v.items ≡ code term.now) }
{
    let mut out = Encoder::new(alloc);
    put_term(&mut out, term);
    out.finish()
}

/// The code of a part. Members of a set or a map that it is ascend in their codes. Want of memory is
/// the one error.
pub fn encode_part(alloc: Global, part: &Part) -> Result<Vec<u8>, AllocError>
    requires { IsOrdered (part_tree part.now) }
    ensures { IfOk result (λ v. v.items ≡ code (part_tree part.now)) }
{
    let mut out = Encoder::new(alloc);
    put_part(&mut out, part);
    out.finish()
}

#[cycle(put)]
pub(crate) fn put_term(out: &mut Encoder, term: &Term)
    ensures { Writes out.old out.new (code term.now) }
{
    let parts = term.parts();
    out.be32(parts.len());
    for part in parts {
        put_part(out, part);
    }
}

#[cycle(put)]
fn put_part(out: &mut Encoder, part: &Part)
    requires { IsOrdered (part_tree part.now) }
    ensures { Writes out.old out.new (code (part_tree part.now)) }
{
    match part {
        Part::Ground(value) => out.ground(value),
        Part::Fresh(name) => {
            out.byte(0x15);
            out.slice(&name.0);
        }
        Part::Var(index) => out.number(0x16, *index as usize),
        Part::NameVar(index) => out.number(0x17, *index as usize),
        Part::List(members) => {
            out.byte(0x20);
            put_terms(out, members);
        }
        Part::Tuple(members) => {
            out.byte(0x21);
            put_terms(out, members);
        }
        Part::Set(members) => {
            out.byte(0x22);
            put_terms(out, members);
        }
        Part::Map(pairs) => {
            out.byte(0x23);
            put_pairs(out, pairs);
        }
        Part::Send {
            channel,
            args,
            persistent,
        } => {
            out.flag(0x30, *persistent);
            put_term(out, channel);
            put_terms(out, args);
        }
        Part::Receive { kind, binds, body } => {
            out.kind(0x31, *kind);
            put_binds(out, binds);
            put_term(out, body);
        }
        Part::New { names, body } => {
            out.origins(0x32, names);
            put_term(out, body);
        }
        Part::Match { target, cases } => {
            out.byte(0x33);
            put_term(out, target);
            put_cases(out, cases);
        }
        Part::Bundle { rights, body } => {
            out.rights(0x34, *rights);
            put_term(out, body);
        }
        Part::Unary { op, arg } => {
            out.unary_op(0x40, *op);
            put_term(out, arg);
        }
        Part::Binary { op, left, right } => {
            out.binary_op(0x41, *op);
            put_term(out, left);
            put_term(out, right);
        }
        Part::Method { name, target, args } => {
            out.text(0x42, name.as_str());
            put_term(out, target);
            put_terms(out, args);
        }
    }
}

#[cycle(put)]
pub(crate) fn put_terms(out: &mut Encoder, terms: &Vec<Term>)
    ensures { Writes out.old out.new (code (many row terms.now.items)) }
{
    out.be32(terms.len());
    for term in terms {
        put_term(out, term);
    }
}

#[cycle(put)]
fn put_pairs(out: &mut Encoder, pairs: &Vec<(Term, Term)>)
    ensures { Writes out.old out.new (code (many row (map pair_tree pairs.now.items))) }
{
    out.be32(pairs.len());
    for pair in pairs {
        put_term(out, &pair.0);
        put_term(out, &pair.1);
    }
}

#[cycle(put)]
pub(crate) fn put_binds(out: &mut Encoder, binds: &Vec<TermBind>)
    ensures { Writes out.old out.new (code (many row (map bind_tree binds.now.items))) }
{
    out.be32(binds.len());
    for bind in binds {
        put_term(out, &bind.channel);
        put_pats(out, &bind.pats);
        out.rest(bind.rest);
    }
}

#[cycle(put)]
fn put_cases(out: &mut Encoder, cases: &Vec<TermCase>)
    ensures { Writes out.old out.new (code (many row (map case_tree cases.now.items))) }
{
    out.be32(cases.len());
    for case in cases {
        put_pat(out, &case.pat);
        put_term(out, &case.body);
    }
}

#[cycle(put)]
fn put_pat(out: &mut Encoder, pat: &TermPat)
    ensures { Writes out.old out.new (code pat.now) }
{
    let parts = pat.parts();
    out.be32(parts.len());
    for part in parts {
        put_pat_part(out, part);
    }
}

#[cycle(put)]
fn put_pat_part(out: &mut Encoder, part: &PatPart)
    requires { IsOrdered (pat_part_tree part.now) }
    ensures { Writes out.old out.new (code (pat_part_tree part.now)) }
{
    match part {
        PatPart::Wild => out.byte(0x52),
        PatPart::Var => out.byte(0x50),
        PatPart::NameVar => out.byte(0x51),
        PatPart::Simple(kind) => out.simple(0x57, *kind),
        PatPart::Same(term) => {
            out.byte(0x53);
            put_term(out, term);
        }
        PatPart::Ground(value) => out.ground(value),
        PatPart::Both(left, right) => {
            out.byte(0x54);
            put_pat(out, left);
            put_pat(out, right);
        }
        PatPart::Either(left, right) => {
            out.byte(0x55);
            put_pat(out, left);
            put_pat(out, right);
        }
        PatPart::Not(inner) => {
            out.byte(0x56);
            put_pat(out, inner);
        }
        PatPart::List(members, rest) => {
            out.byte(0x20);
            put_pats(out, members);
            out.rest(*rest);
        }
        PatPart::Tuple(members) => {
            out.byte(0x21);
            put_pats(out, members);
        }
        PatPart::Set(members, rest) => {
            out.byte(0x22);
            put_pats(out, members);
            out.rest(*rest);
        }
        PatPart::Map(pairs, rest) => {
            out.byte(0x23);
            put_pat_pairs(out, pairs);
            out.rest(*rest);
        }
        PatPart::Send {
            channel,
            args,
            persistent,
        } => {
            out.flag(0x30, *persistent);
            put_pat(out, channel);
            put_pats(out, args);
        }
        PatPart::Bundle { rights, body } => {
            out.rights(0x34, *rights);
            put_pat(out, body);
        }
        PatPart::Closed(part) => put_part(out, part),
    }
}

#[cycle(put)]
fn put_pats(out: &mut Encoder, pats: &Vec<TermPat>)
    ensures { Writes out.old out.new (code (many row pats.now.items)) }
{
    out.be32(pats.len());
    for pat in pats {
        put_pat(out, pat);
    }
}

#[cycle(put)]
fn put_pat_pairs(out: &mut Encoder, pairs: &Vec<(TermPat, TermPat)>)
    ensures { Writes out.old out.new (code (many row (map pair_tree pairs.now.items))) }
{
    out.be32(pairs.len());
    for pair in pairs {
        put_pat(out, &pair.0);
        put_pat(out, &pair.1);
    }
}
