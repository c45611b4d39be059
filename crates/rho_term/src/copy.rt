// Copies of parts and of what stands in them. Each stands for the same tree.

ghost use Rattle.std.specs.Prelude.{◌≡◌, [], ◌∷◌, ◌++◌, false, map, string_bytes, IfOk};
ghost use Rattle.calculus.specs.Meaning.{ground_label};
ghost use Rattle.rho_term.specs.Parts.{part_tree, pat_part_tree, pair_tree, bind_tree, case_tree, pat_tree, term_tree};

use crate::room::with_room;
use crate::term::{Part, PatPart, Term, TermBind, TermCase, TermPat};
use calculus::Ground;
use std::alloc::{AllocError, Global};

/// What makes copies. Once memory was wanting, what it makes are no copies any more.
#[derive(Drop)]
pub(crate) struct Copier {
    alloc: Global,
    failed: bool,
}

impl Copier {
    /// One that made no copy yet.
    pub(crate) fn new(alloc: Global) -> Copier
        ensures { result.failed ≡ false }
    {
        Copier {
            alloc,
            failed: false,
        }
    }

    /// What was made, if it is a copy.
    pub(crate) fn made<T: Drop>(&self, copy: T) -> Result<T, AllocError>
        ensures { IfOk result (λ v. (self.now.failed ≡ false) × (v ≡ copy)) }
    {
        if self.failed {
            return Err(AllocError);
        }
        Ok(copy)
    }

    // One more copy, after those that were made.
    fn add<T: Drop>(&mut self, copies: &mut Vec<T>, copy: T)
        ensures { self.new.failed ≡ false → (self.old.failed ≡ false) × (copies.new.items ≡ copies.old.items ++ copy ∷ []) }
    {
        match copies.push(copy) {
            Ok(()) => {}
            Err(_) => self.failed = true,
        }
    }

    // A list that was cloned.
    fn list<T: Drop>(&mut self, cloned: Result<Vec<T>, AllocError>) -> Vec<T>
        ensures { self.new.failed ≡ false → (self.old.failed ≡ false) × (cloned ≡ Ok result) }
    {
        match cloned {
            Ok(list) => list,
            Err(_) => {
                self.failed = true;
                Vec::new(self.alloc)
            }
        }
    }

    // A text that was cloned.
    fn text(&mut self, text: &String) -> String
        ensures { self.new.failed ≡ false → (self.old.failed ≡ false) × (string_bytes result ≡ string_bytes text.now) }
    {
        match text.clone() {
            Ok(copy) => copy,
            Err(_) => {
                self.failed = true;
                String::new(self.alloc)
            }
        }
    }

    // A process of copied parts.
    fn term(&self, term: &Term, parts: Vec<Part>) -> Term
        requires { self.now.failed ≡ false → term_tree parts.items ≡ term.now }
        ensures { self.now.failed ≡ false → result ≡ term.now }
    {
        if self.failed {
            return Term::nil(self.alloc);
        }
        term.with_parts(parts)
    }

    // A pattern of copied parts.
    fn pattern(&self, pat: &TermPat, parts: Vec<PatPart>) -> TermPat
        requires { self.now.failed ≡ false → pat_tree parts.items ≡ pat.now }
        ensures { self.now.failed ≡ false → result ≡ pat.now }
    {
        if self.failed {
            return TermPat::new(Vec::new(self.alloc));
        }
        pat.with_parts(parts)
    }
}

#[cycle(copy)]
pub(crate) fn copy_term(copier: &mut Copier, term: &Term) -> Term
    ensures { copier.new.failed ≡ false → (copier.old.failed ≡ false) × (result ≡ term.now) }
{
    let mut parts = with_room(copier.alloc, term.parts().len());
    for part in term.parts() {
        let copy = copy_part(copier, part);
        copier.add(&mut parts, copy);
    }
    copier.term(term, parts)
}

#[cycle(copy)]
pub(crate) fn copy_part(copier: &mut Copier, part: &Part) -> Part
    ensures { copier.new.failed ≡ false → (copier.old.failed ≡ false) × (part_tree result ≡ part_tree part.now) }
{
    match part {
        Part::Ground(value) => Part::Ground(copy_ground(copier, value)),
        Part::Fresh(name) => Part::Fresh(*name),
        Part::Var(index) => Part::Var(*index),
        Part::NameVar(index) => Part::NameVar(*index),
        Part::List(members) => Part::List(copy_terms(copier, members)),
        Part::Tuple(members) => Part::Tuple(copy_terms(copier, members)),
        Part::Set(members) => Part::Set(copy_terms(copier, members)),
        Part::Map(pairs) => Part::Map(copy_pairs(copier, pairs)),
        Part::Send {
            channel,
            args,
            persistent,
        } => Part::Send {
            channel: copy_term(copier, channel),
            args: copy_terms(copier, args),
            persistent: *persistent,
        },
        Part::Receive { kind, binds, body } => Part::Receive {
            kind: *kind,
            binds: copy_binds(copier, binds),
            body: copy_term(copier, body),
        },
        Part::New { names, body } => Part::New {
            names: copier.list(names.clone()),
            body: copy_term(copier, body),
        },
        Part::Match { target, cases } => Part::Match {
            target: copy_term(copier, target),
            cases: copy_cases(copier, cases),
        },
        Part::Bundle { rights, body } => Part::Bundle {
            rights: *rights,
            body: copy_term(copier, body),
        },
        Part::Unary { op, arg } => Part::Unary {
            op: *op,
            arg: copy_term(copier, arg),
        },
        Part::Binary { op, left, right } => Part::Binary {
            op: *op,
            left: copy_term(copier, left),
            right: copy_term(copier, right),
        },
        Part::Method { name, target, args } => Part::Method {
            name: copier.text(name),
            target: copy_term(copier, target),
            args: copy_terms(copier, args),
        },
    }
}

#[cycle(copy)]
pub(crate) fn copy_pat(copier: &mut Copier, pat: &TermPat) -> TermPat
    ensures { copier.new.failed ≡ false → (copier.old.failed ≡ false) × (result ≡ pat.now) }
{
    let mut parts = with_room(copier.alloc, pat.parts().len());
    for part in pat.parts() {
        let copy = copy_pat_part(copier, part);
        copier.add(&mut parts, copy);
    }
    copier.pattern(pat, parts)
}

#[cycle(copy)]
fn copy_pat_part(copier: &mut Copier, part: &PatPart) -> PatPart
    ensures { copier.new.failed ≡ false → (copier.old.failed ≡ false) × (pat_part_tree result ≡ pat_part_tree part.now) }
{
    match part {
        PatPart::Wild => PatPart::Wild,
        PatPart::Var => PatPart::Var,
        PatPart::NameVar => PatPart::NameVar,
        PatPart::Simple(kind) => PatPart::Simple(*kind),
        PatPart::Same(process) => PatPart::Same(copy_term(copier, process)),
        PatPart::Ground(value) => PatPart::Ground(copy_ground(copier, value)),
        PatPart::Both(left, right) => {
            PatPart::Both(copy_pat(copier, left), copy_pat(copier, right))
        }
        PatPart::Either(left, right) => {
            PatPart::Either(copy_pat(copier, left), copy_pat(copier, right))
        }
        PatPart::Not(inner) => PatPart::Not(copy_pat(copier, inner)),
        PatPart::List(members, rest) => PatPart::List(copy_pats(copier, members), *rest),
        PatPart::Tuple(members) => PatPart::Tuple(copy_pats(copier, members)),
        PatPart::Set(members, rest) => PatPart::Set(copy_pats(copier, members), *rest),
        PatPart::Map(pairs, rest) => PatPart::Map(copy_pat_pairs(copier, pairs), *rest),
        PatPart::Send {
            channel,
            args,
            persistent,
        } => PatPart::Send {
            channel: copy_pat(copier, channel),
            args: copy_pats(copier, args),
            persistent: *persistent,
        },
        PatPart::Bundle { rights, body } => PatPart::Bundle {
            rights: *rights,
            body: copy_pat(copier, body),
        },
        PatPart::Closed(part) => PatPart::Closed(copy_part(copier, part)),
    }
}

#[cycle(copy)]
fn copy_terms(copier: &mut Copier, terms: &Vec<Term>) -> Vec<Term>
    ensures { copier.new.failed ≡ false → (copier.old.failed ≡ false) × (result.items ≡ terms.now.items) }
{
    let mut copies = with_room(copier.alloc, terms.len());
    for term in terms {
        let copy = copy_term(copier, term);
        copier.add(&mut copies, copy);
    }
    copies
}

#[cycle(copy)]
fn copy_pairs(copier: &mut Copier, pairs: &Vec<(Term, Term)>) -> Vec<(Term, Term)>
    ensures { copier.new.failed ≡ false → (copier.old.failed ≡ false) × (map pair_tree result.items ≡ map pair_tree pairs.now.items) }
{
    let mut copies = with_room(copier.alloc, pairs.len());
    for pair in pairs {
        let key = copy_term(copier, &pair.0);
        let value = copy_term(copier, &pair.1);
        copier.add(&mut copies, (key, value));
    }
    copies
}

#[cycle(copy)]
fn copy_binds(copier: &mut Copier, binds: &Vec<TermBind>) -> Vec<TermBind>
    ensures { copier.new.failed ≡ false → (copier.old.failed ≡ false) × (map bind_tree result.items ≡ map bind_tree binds.now.items) }
{
    let mut copies = with_room(copier.alloc, binds.len());
    for bind in binds {
        let copy = copy_bind(copier, bind);
        copier.add(&mut copies, copy);
    }
    copies
}

#[cycle(copy)]
pub(crate) fn copy_bind(copier: &mut Copier, bind: &TermBind) -> TermBind
    ensures { copier.new.failed ≡ false → (copier.old.failed ≡ false) × (bind_tree result ≡ bind_tree bind.now) }
{
    TermBind {
        pats: copy_pats(copier, &bind.pats),
        rest: bind.rest,
        channel: copy_term(copier, &bind.channel),
    }
}

#[cycle(copy)]
fn copy_cases(copier: &mut Copier, cases: &Vec<TermCase>) -> Vec<TermCase>
    ensures { copier.new.failed ≡ false → (copier.old.failed ≡ false) × (map case_tree result.items ≡ map case_tree cases.now.items) }
{
    let mut copies = with_room(copier.alloc, cases.len());
    for case in cases {
        let pat = copy_pat(copier, &case.pat);
        let body = copy_term(copier, &case.body);
        copier.add(&mut copies, TermCase { pat, body });
    }
    copies
}

#[cycle(copy)]
fn copy_pats(copier: &mut Copier, pats: &Vec<TermPat>) -> Vec<TermPat>
    ensures { copier.new.failed ≡ false → (copier.old.failed ≡ false) × (result.items ≡ pats.now.items) }
{
    let mut copies = with_room(copier.alloc, pats.len());
    for pat in pats {
        let copy = copy_pat(copier, pat);
        copier.add(&mut copies, copy);
    }
    copies
}

#[cycle(copy)]
fn copy_pat_pairs(copier: &mut Copier, pairs: &Vec<(TermPat, TermPat)>) -> Vec<(TermPat, TermPat)>
    ensures { copier.new.failed ≡ false → (copier.old.failed ≡ false) × (map pair_tree result.items ≡ map pair_tree pairs.now.items) }
{
    let mut copies = with_room(copier.alloc, pairs.len());
    for pair in pairs {
        let key = copy_pat(copier, &pair.0);
        let value = copy_pat(copier, &pair.1);
        copier.add(&mut copies, (key, value));
    }
    copies
}

fn copy_ground(copier: &mut Copier, value: &Ground) -> Ground
    ensures { copier.new.failed ≡ false → (copier.old.failed ≡ false) × (ground_label result ≡ ground_label value.now) }
{
    match value {
        Ground::Bool(b) => Ground::Bool(*b),
        Ground::Int(n) => Ground::Int(*n),
        Ground::Str(s) => Ground::Str(copier.text(s)),
        Ground::Uri(s) => Ground::Uri(copier.text(s)),
        Ground::Bytes(bytes) => Ground::Bytes(copier.list(bytes.clone())),
    }
}
