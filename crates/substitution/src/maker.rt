// Steps of which terms are made. What makes them remembers that memory was wanting.

ghost use Rattle.std.specs.Prelude.{◌≡◌, ◌+◌, [], ◌∷◌, ◌++◌, false, map, string_bytes, IfOk, All};
ghost use Rattle.calculus.specs.Normal.{ascending};
ghost use Rattle.calculus.specs.Shape.{many};
ghost use Rattle.calculus.specs.Tree.{par, set, dict};
ghost use Rattle.rho_term.specs.Normal.{IsOrdered};
ghost use Rattle.rho_term.specs.Parts.{part_tree, pat_part_tree, pat_tree, ground_tree, pair_tree};
ghost use Rattle.substitution.specs.Becoming.{Joins};

use calculus::{Ground, Origin};
use code_order::{sorted_pairs, sorted_parts, sorted_terms};
use rho_term::{Part, PatPart, Term, TermPat};
use std::alloc::{AllocError, Global};

/// What makes terms. Once memory was wanting, what it makes is of no use.
#[derive(Drop)]
pub(crate) struct Maker {
    pub(crate) alloc: Global,
    pub(crate) failed: bool,
}

impl Maker {
    /// One that made nothing yet.
    pub(crate) fn new(alloc: Global) -> Maker
        ensures { result.failed ≡ false }
    {
        Maker {
            alloc,
            failed: false,
        }
    }

    /// What was made, where memory was never wanting.
    pub(crate) fn made<T: Drop>(&self, value: T) -> Result<T, AllocError>
        ensures { IfOk result (λ v. (self.now.failed ≡ false) × (v ≡ value)) }
    {
        if self.failed {
            return Err(AllocError);
        }
        Ok(value)
    }

    /// One more item, at the end of these.
    pub(crate) fn add<T: Drop>(&mut self, items: &mut Vec<T>, item: T)
        ensures { self.new.failed ≡ false → (self.old.failed ≡ false) × (items.new.items ≡ items.old.items ++ item ∷ []) }
    {
        match items.push(item) {
            Ok(()) => {}
            Err(_) => self.failed = true,
        }
    }

    /// These parts as closed forms, at the end of those.
    pub(crate) fn add_closed(&mut self, out: &mut Vec<PatPart>, parts: Vec<Part>)
        ensures { self.new.failed ≡ false → (self.old.failed ≡ false) × (All (λ p. IsOrdered (part_tree p)) parts.items →
            Joins pat_part_tree (map part_tree parts.items) out.old.items out.new.items) }
    {
        for part in parts {
            self.add(out, PatPart::Closed(part));
        }
    }

    // A list that was cloned or put in order.
    fn list<T: Drop>(&mut self, list: Result<Vec<T>, AllocError>) -> Vec<T>
        ensures { self.new.failed ≡ false → (self.old.failed ≡ false) × (list ≡ Ok result) }
    {
        match list {
            Ok(items) => items,
            Err(_) => {
                self.failed = true;
                Vec::new(self.alloc)
            }
        }
    }

    /// The same declared names.
    pub(crate) fn names(&mut self, names: &Vec<Origin>) -> Vec<Origin>
        ensures { self.new.failed ≡ false → (self.old.failed ≡ false) × (result.items ≡ names.now.items) }
    {
        self.list(names.clone())
    }

    /// The same text.
    pub(crate) fn text(&mut self, text: &String) -> String
        ensures { self.new.failed ≡ false → (self.old.failed ≡ false) × (string_bytes result ≡ string_bytes text.now) }
    {
        match text.clone() {
            Ok(copy) => copy,
            Err(_) => {
                self.failed = true;
                String::new(self.alloc)
            }
        }
    }

    /// The same ground value.
    pub(crate) fn ground(&mut self, value: &Ground) -> Ground
        ensures { self.new.failed ≡ false → (self.old.failed ≡ false) × (ground_tree result ≡ ground_tree value.now) }
    {
        match value {
            Ground::Bool(truth) => Ground::Bool(*truth),
            Ground::Int(number) => Ground::Int(*number),
            Ground::Str(text) => Ground::Str(self.text(text)),
            Ground::Uri(text) => Ground::Uri(self.text(text)),
            Ground::Bytes(bytes) => Ground::Bytes(self.list(bytes.clone())),
        }
    }

    /// A part that stands for the same tree.
    pub(crate) fn copy(&mut self, part: &Part) -> Part
        ensures { self.new.failed ≡ false → (self.old.failed ≡ false) × (part_tree result ≡ part_tree part.now) }
    {
        match part.copy(self.alloc) {
            Ok(copy) => copy,
            Err(_) => {
                self.failed = true;
                Part::Var(0)
            }
        }
    }

    /// The index of a variable past so many others. One that no `u32` holds counts as want of memory.
    pub(crate) fn index_past(&mut self, index: u32, others: u32) -> u32
        ensures { self.new.failed ≡ false → (self.old.failed ≡ false) × (result ≡ index + others) }
    {
        match index.checked_add(others) {
            Some(sum) => sum,
            None => {
                self.failed = true;
                0
            }
        }
    }

    /// The set of these members, in order.
    pub(crate) fn set(&mut self, members: Vec<Term>) -> Part
        ensures { self.new.failed ≡ false → (self.old.failed ≡ false) × (part_tree result ≡ many set (ascending members.items)) }
    {
        let ordered = sorted_terms(self.alloc, members);
        Part::Set(self.list(ordered))
    }

    /// The map of these pairs, in order.
    pub(crate) fn map(&mut self, pairs: Vec<(Term, Term)>) -> Part
        ensures { self.new.failed ≡ false → (self.old.failed ≡ false) × (part_tree result ≡ many dict (ascending (map pair_tree pairs.items))) }
    {
        let ordered = sorted_pairs(self.alloc, pairs);
        Part::Map(self.list(ordered))
    }

    /// The process of these parts, in order.
    pub(crate) fn process(&mut self, parts: Vec<Part>) -> Term
        requires { self.old.failed ≡ false → All (λ p. IsOrdered (part_tree p)) parts.items }
        ensures { self.new.failed ≡ false → (self.old.failed ≡ false) × (result ≡ many par (ascending (map part_tree parts.items))) }
    {
        if self.failed {
            return Term::nil(self.alloc);
        }
        match sorted_parts(self.alloc, parts) {
            Ok(parts) => Term::from_sorted(parts),
            Err(_) => {
                self.failed = true;
                Term::nil(self.alloc)
            }
        }
    }

    /// The pattern of these parts.
    pub(crate) fn pattern(&self, parts: Vec<PatPart>) -> TermPat
        requires { self.now.failed ≡ false → All (λ p. IsOrdered (pat_part_tree p)) parts.items }
        ensures { self.now.failed ≡ false → result ≡ pat_tree parts.items }
    {
        if self.failed {
            return TermPat::new(Vec::new(self.alloc));
        }
        TermPat::new(parts)
    }
}
