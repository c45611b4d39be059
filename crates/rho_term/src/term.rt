ghost use Rattle.std.specs.Prelude.{◌≡◌, ◌≤◌, true, All, IfOk, MatchResult};
ghost use Rattle.calculus.specs.Tree.{par};
ghost use Rattle.calculus.specs.Shape.{leaf, only};
ghost use Rattle.calculus.specs.Form.{term, part, pat as process_pat, name_pat};
ghost use Rattle.calculus.specs.Size.{height};
ghost use Rattle.rho_term.specs.Parts.{part_tree, pat_part_tree, bind_tree, term_tree, pat_tree};
ghost use Rattle.rho_term.specs.Normal.{IsNormal, IsOrdered};
ghost use Rattle.rho_term.specs.Measures.{in_u32};
ghost use Rattle.rho_term.specs.Measured.{IsMeasured};
ghost use Rattle.rho_term.specs.Sizes.{in_u64, size as code_size};
ghost use Rattle.rho_term.specs.Faults.{faults};
ghost use Rattle.rho_term.specs.Taken.{IsSetOf, IsNoSet, IsMapOf, IsNoMap, IsMatchOf, IsNoMatch, IsBundleOf, IsNoBundle, IsOfferedBy, IsNoSend, IsNoReceive};

use crate::copy::{Copier, copy_bind, copy_part, copy_pat, copy_term};
use crate::measure::{part_measures, parts_measures, pat_parts_measures};
use crate::measures::Measures;
use crate::op::Op;
use crate::room::with_room;
use calculus::{BinaryOp, Digest, Ground, Kind, Origin, Rights, Simple, TermRest, UnaryOp};
use std::alloc::{AllocError, Global};
use std::marker::Model;

/// A process in normal order, seen as the tree that it stands for.
///
/// Its parts ascend in their codes, and so do the members of each set and map in it, wherever they
/// stand. A name is the process that it quotes.
#[cycle(term)]
pub struct Term {
    parts: Vec<Part>,
    height: u32,
    faults: u32,
    code_length: u64,
}

impl Drop for Term {
    #[cycle(let_go)]
    fn drop(self) {
        let Term {
            parts: _parts,
            height: _,
            faults: _,
            code_length: _,
        } = self;
    }
}

/// A part of a process.
#[cycle(term)]
pub enum Part {
    Ground(Ground),
    /// The drop of a fresh name.
    Fresh(Digest),
    /// A process variable, by the number of variables in scope that are bound after it.
    Var(u32),
    /// The drop of a name variable, by the same number.
    NameVar(u32),
    List(Vec<Term>),
    /// At least one member.
    Tuple(Vec<Term>),
    Set(Vec<Term>),
    /// Keys with their values.
    Map(Vec<(Term, Term)>),
    Send {
        channel: Term,
        args: Vec<Term>,
        persistent: bool,
    },
    /// 1 to 16 binds.
    Receive {
        kind: Kind,
        binds: Vec<TermBind>,
        body: Term,
    },
    /// At least one name.
    New {
        names: Vec<Origin>,
        body: Term,
    },
    /// At least one case.
    Match {
        target: Term,
        cases: Vec<TermCase>,
    },
    Bundle {
        rights: Rights,
        body: Term,
    },
    Unary {
        op: UnaryOp,
        arg: Term,
    },
    Binary {
        op: BinaryOp,
        left: Term,
        right: Term,
    },
    Method {
        name: String,
        target: Term,
        args: Vec<Term>,
    },
}

impl Drop for Part {
    #[cycle(let_go)]
    fn drop(self) {
        match self {
            Part::Ground(_ground) => {}
            Part::Fresh(_digest) => {}
            Part::Var(_) => {}
            Part::NameVar(_) => {}
            Part::List(_members) => {}
            Part::Tuple(_members) => {}
            Part::Set(_members) => {}
            Part::Map(_pairs) => {}
            Part::Send {
                channel: _channel,
                args: _args,
                persistent: _,
            } => {}
            Part::Receive {
                kind: _,
                binds: _binds,
                body: _body,
            } => {}
            Part::New {
                names: _names,
                body: _body,
            } => {}
            Part::Match {
                target: _target,
                cases: _cases,
            } => {}
            Part::Bundle {
                rights: _,
                body: _body,
            } => {}
            Part::Unary { op: _, arg: _arg } => {}
            Part::Binary {
                op: _,
                left: _left,
                right: _right,
            } => {}
            Part::Method {
                name: _name,
                target: _target,
                args: _args,
            } => {}
        }
    }
}

/// A pattern of processes or of names, its parts in written order, seen as the tree that it stands for.
///
/// A name pattern is the pattern of the process that it quotes; a name variable there is the one part
/// `NameVar`.
#[cycle(term)]
pub struct TermPat {
    parts: Vec<PatPart>,
    height: u32,
    faults: u32,
    name_faults: u32,
    code_length: u64,
}

impl Drop for TermPat {
    #[cycle(let_go)]
    fn drop(self) {
        let TermPat {
            parts: _parts,
            height: _,
            faults: _,
            name_faults: _,
            code_length: _,
        } = self;
    }
}

/// A part of a pattern.
#[cycle(term)]
pub enum PatPart {
    /// What takes any process.
    Wild,
    /// A process variable.
    Var,
    /// A name variable.
    NameVar,
    Simple(Simple),
    /// What is congruent to a process of the scope outside.
    Same(Term),
    Ground(Ground),
    Both(TermPat, TermPat),
    Either(TermPat, TermPat),
    Not(TermPat),
    List(Vec<TermPat>, TermRest),
    Tuple(Vec<TermPat>),
    Set(Vec<TermPat>, TermRest),
    Map(Vec<(TermPat, TermPat)>, TermRest),
    Send {
        channel: TermPat,
        args: Vec<TermPat>,
        persistent: bool,
    },
    Bundle {
        rights: Rights,
        body: TermPat,
    },
    /// A receive, a `new` or a `match` without a variable of the scope outside.
    Closed(Part),
}

impl Drop for PatPart {
    #[cycle(let_go)]
    fn drop(self) {
        match self {
            PatPart::Wild => {}
            PatPart::Var => {}
            PatPart::NameVar => {}
            PatPart::Simple(_) => {}
            PatPart::Same(_body) => {}
            PatPart::Ground(_ground) => {}
            PatPart::Both(_left, _right) => {}
            PatPart::Either(_left, _right) => {}
            PatPart::Not(_arg) => {}
            PatPart::List(_members, _rest) => {}
            PatPart::Tuple(_members) => {}
            PatPart::Set(_members, _rest) => {}
            PatPart::Map(_pairs, _rest) => {}
            PatPart::Send {
                channel: _channel,
                args: _args,
                persistent: _,
            } => {}
            PatPart::Bundle {
                rights: _,
                body: _body,
            } => {}
            PatPart::Closed(_form) => {}
        }
    }
}

/// A bind of a receive: the patterns of a datum's arguments, a remainder and a channel.
#[cycle(term)]
pub struct TermBind {
    pub pats: Vec<TermPat>,
    pub rest: TermRest,
    pub channel: Term,
}

impl Drop for TermBind {
    #[cycle(let_go)]
    fn drop(self) {
        let TermBind {
            pats: _pats,
            rest: _rest,
            channel: _channel,
        } = self;
    }
}

/// A case of a `match`.
#[cycle(term)]
pub struct TermCase {
    pub pat: TermPat,
    pub body: Term,
}

impl Drop for TermCase {
    #[cycle(let_go)]
    fn drop(self) {
        let TermCase {
            pat: _pat,
            body: _body,
        } = self;
    }
}

impl Model for Term {
    ghost use Rattle.calculus.specs.Tree.{Tree, tree_code, weight};

    ghost Value = { Tree };

    ghost coded = { tree_code };

    ghost use Rattle.rho_term.specs.Parts.{term_tree};
    ghost use Rattle.rho_term.specs.Measured.{IsKept};

    ghost view = { λ a. term_tree a.parts.items };

    ghost invariant = { λ a. IsKept (term_tree a.parts.items) a.height a.faults a.code_length };

    ghost size = { weight };

    ghost use Rattle.rho_term.specs.Falls.{parts_fall};

    ghost size_decreases = { λ a h. parts_fall a.parts.items };
}

impl Model for TermPat {
    ghost use Rattle.calculus.specs.Tree.{Tree, tree_code, weight};

    ghost Value = { Tree };

    ghost coded = { tree_code };

    ghost use Rattle.rho_term.specs.Parts.{pat_tree};
    ghost use Rattle.rho_term.specs.Measured.{IsPatKept};

    ghost view = { λ a. pat_tree a.parts.items };

    ghost invariant = { λ a. IsPatKept (pat_tree a.parts.items) a.height a.faults a.name_faults a.code_length };

    ghost size = { weight };

    ghost use Rattle.rho_term.specs.Falls.{pat_parts_fall};

    ghost size_decreases = { λ a h. pat_parts_fall a.parts.items };
}

impl Term {
    /// The empty process, `Nil`. It takes no memory.
    pub fn nil(alloc: Global) -> Term
        ensures { result ≡ leaf par }
    {
        Term {
            parts: Vec::new(alloc),
            height: 0,
            faults: 0,
            code_length: 4,
        }
    }

    /// The process of these parts, which ascend in their codes; so do the members of a set or a map
    /// among them.
    pub fn from_sorted(parts: Vec<Part>) -> Term
        requires parts { IsOrdered (term_tree parts.items) }
        requires members { All (λ p. IsOrdered (part_tree p)) parts.items }
        ensures { result ≡ term_tree parts.items }
    {
        let measures = parts_measures(&parts);
        Term {
            parts,
            height: measures.height,
            faults: measures.faults,
            code_length: measures.length,
        }
    }

    /// The process of this one part. Members of a set or a map that it is ascend in their codes. Want
    /// of memory is the one error.
    pub fn from_part(alloc: Global, part: Part) -> Result<Term, AllocError>
        requires { IsOrdered (part_tree part) }
        ensures { IfOk result (λ t. t ≡ only (part_tree part)) }
    {
        let mut parts = with_room(alloc, 1);
        parts.push(part)?;
        Ok(Term::from_sorted(parts))
    }

    /// The parts, ascending in their codes.
    pub fn parts(&self) -> &[Part]
        ensures parts { self.now ≡ term_tree result.now }
        ensures normal { IsNormal self.now }
    {
        self.parts.as_slice()
    }

    /// The parts, given away.
    pub fn into_parts(self) -> Vec<Part>
        ensures parts { self ≡ term_tree result.items }
        ensures normal { IsNormal self }
    {
        let Term {
            parts,
            height: _,
            faults: _,
            code_length: _,
        } = self;
        parts
    }

    /// The height, or the greatest `u32` where it is greater.
    pub fn height(&self) -> u32
        ensures height { result ≡ in_u32 (height self.now) }
        ensures normal { IsNormal self.now }
    {
        self.height
    }

    /// How many bytes its code has, or the greatest `u64` where it has more. It was counted when the
    /// process was made.
    pub fn code_len(&self) -> u64
        ensures { result ≡ in_u64 (code_size self.now) }
    {
        self.code_length
    }

    /// Whether it is without a fault: without an empty tuple, and with forms of their sorts alone in
    /// its patterns. It was seen when the process was made.
    pub fn is_faultless(&self) -> bool
        ensures faults { result ≡ true → faults term self.now ≡ 0 }
        ensures faultless { faults term self.now ≡ 0 → result ≡ true }
        ensures normal { IsNormal self.now }
    {
        self.faults == 0
    }

    // Its measures, which were taken when it was made.
    pub(crate) fn measures(&self) -> Measures
        ensures { IsMeasured term self.now result }
    {
        Measures {
            height: self.height,
            faults: self.faults,
            length: self.code_length,
        }
    }

    // The same process from parts that stand for the same trees.
    pub(crate) fn with_parts(&self, parts: Vec<Part>) -> Term
        requires { term_tree parts.items ≡ self.now }
        ensures { result ≡ self.now }
    {
        Term {
            parts,
            height: self.height,
            faults: self.faults,
            code_length: self.code_length,
        }
    }

    /// An equal process. Want of memory is the one error.
    pub fn copy(&self, alloc: Global) -> Result<Term, AllocError>
        ensures { IfOk result (λ t. t ≡ self.now) }
    {
        let mut copier = Copier::new(alloc);
        let copy = copy_term(&mut copier, self);
        copier.made(copy)
    }
}

impl TermPat {
    /// The pattern of these parts. The members of a set or a map that is one of them, as a closed form,
    /// ascend in their codes.
    pub fn new(parts: Vec<PatPart>) -> TermPat
        requires { All (λ p. IsOrdered (pat_part_tree p)) parts.items }
        ensures { result ≡ pat_tree parts.items }
    {
        let (measures, name_faults) = pat_parts_measures(&parts);
        TermPat {
            parts,
            height: measures.height,
            faults: measures.faults,
            name_faults,
            code_length: measures.length,
        }
    }

    /// The parts, in written order.
    pub fn parts(&self) -> &[PatPart]
        ensures parts { self.now ≡ pat_tree result.now }
        ensures normal { IsNormal self.now }
    {
        self.parts.as_slice()
    }

    // The same pattern from parts that stand for the same trees.
    pub(crate) fn with_parts(&self, parts: Vec<PatPart>) -> TermPat
        requires { pat_tree parts.items ≡ self.now }
        ensures { result ≡ self.now }
    {
        TermPat {
            parts,
            height: self.height,
            faults: self.faults,
            name_faults: self.name_faults,
            code_length: self.code_length,
        }
    }

    // Its measures as a pattern of processes, which were taken when it was made.
    pub(crate) fn measures(&self) -> Measures
        ensures { IsMeasured process_pat self.now result }
    {
        Measures {
            height: self.height,
            faults: self.faults,
            length: self.code_length,
        }
    }

    // Its measures as a pattern of names.
    pub(crate) fn name_measures(&self) -> Measures
        ensures { IsMeasured name_pat self.now result }
    {
        Measures {
            height: self.height,
            faults: self.name_faults,
            length: self.code_length,
        }
    }

    /// An equal pattern. Want of memory is the one error.
    pub fn copy(&self, alloc: Global) -> Result<TermPat, AllocError>
        ensures { IfOk result (λ t. t ≡ self.now) }
    {
        let mut copier = Copier::new(alloc);
        let copy = copy_pat(&mut copier, self);
        copier.made(copy)
    }
}

impl Part {
    /// The members of a set, or the part as it is where it is none.
    pub fn into_members(self) -> Result<Vec<Term>, Part>
        ensures { MatchResult result (IsSetOf self) (λ p. (p ≡ self) × IsNoSet self) }
    {
        match self {
            Part::Set(members) => Ok(members),
            other => Err(other),
        }
    }

    /// The pairs of a map, or the part as it is where it is none.
    pub fn into_pairs(self) -> Result<Vec<(Term, Term)>, Part>
        ensures { MatchResult result (IsMapOf self) (λ p. (p ≡ self) × IsNoMap self) }
    {
        match self {
            Part::Map(pairs) => Ok(pairs),
            other => Err(other),
        }
    }

    /// The target and the cases of a match, or the part as it is where it is none.
    pub fn into_match(self) -> Result<(Term, Vec<TermCase>), Part>
        ensures { MatchResult result (IsMatchOf self) (λ p. (p ≡ self) × IsNoMatch self) }
    {
        match self {
            Part::Match { target, cases } => Ok((target, cases)),
            other => Err(other),
        }
    }

    /// The body of a bundle, or the part as it is where it is none.
    pub fn into_bundled(self) -> Result<Term, Part>
        ensures { MatchResult result (IsBundleOf self) (λ p. (p ≡ self) × IsNoBundle self) }
    {
        match self {
            Part::Bundle { rights: _, body } => Ok(body),
            other => Err(other),
        }
    }

    /// The offer with this id of a send or a receive, or the part as it is where it is neither.
    pub fn into_op(self, id: Digest) -> Result<Op, Part>
        ensures { MatchResult result (IsOfferedBy self id.0) (λ p. (p ≡ self) × (IsNoSend self × IsNoReceive self)) }
    {
        match self {
            Part::Send {
                channel,
                args,
                persistent,
            } => Ok(Op::Produce {
                id,
                channel,
                args,
                persistent,
            }),
            Part::Receive { kind, binds, body } => Ok(Op::Consume {
                id,
                kind,
                binds,
                body,
            }),
            other => Err(other),
        }
    }

    /// A part that stands for the same tree. Want of memory is the one error.
    pub fn copy(&self, alloc: Global) -> Result<Part, AllocError>
        ensures { IfOk result (λ p. part_tree p ≡ part_tree self.now) }
    {
        let mut copier = Copier::new(alloc);
        let copy = copy_part(&mut copier, self);
        copier.made(copy)
    }

    /// How many bytes its code has, or the greatest `u64` where it has more.
    pub fn code_len(&self) -> u64
        ensures { result ≡ in_u64 (code_size (part_tree self.now)) }
    {
        part_measures(self).length
    }

    /// Whether it is without a fault, as a process is.
    pub fn is_faultless(&self) -> bool
        ensures faults { result ≡ true → faults part (part_tree self.now) ≡ 0 }
        ensures faultless { faults part (part_tree self.now) ≡ 0 → result ≡ true }
        ensures normal { IsOrdered (part_tree self.now) → IsNormal (part_tree self.now) }
    {
        part_measures(self).faults == 0
    }
}

impl TermCase {
    /// The body, given away.
    pub fn into_body(self) -> Term
        ensures { result ≡ self.body }
    {
        let TermCase { pat: _pat, body } = self;
        body
    }
}

impl TermBind {
    /// A bind that stands for the same tree. Want of memory is the one error.
    pub fn copy(&self, alloc: Global) -> Result<TermBind, AllocError>
        ensures { IfOk result (λ b. bind_tree b ≡ bind_tree self.now) }
    {
        let mut copier = Copier::new(alloc);
        let copy = copy_bind(&mut copier, self);
        copier.made(copy)
    }
}
