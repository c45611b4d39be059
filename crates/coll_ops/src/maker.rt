// Steps of which values are made. What makes them remembers that memory was wanting.

ghost use Rattle.std.specs.Prelude.{◌≡◌, ◌++◌, [], ◌∷◌, false, IfOk};
ghost use Rattle.calculus.specs.Outcome.{Answer};
ghost use Rattle.calculus.specs.Shape.{only};
ghost use Rattle.calculus.specs.Tree.{Tree};
ghost use Rattle.coll_ops.specs.Views.{Tells};
ghost use Rattle.rho_term.specs.Normal.{IsOrdered};
ghost use Rattle.rho_term.specs.Parts.{part_tree};
ghost use Rattle.value_ops.specs.Answers.{Answers};

use calculus::FaultKind;
use rho_term::{Part, Term};
use std::alloc::{AllocError, Global};
use value_ops::OpStop;

/// What makes values. Once memory was wanting, what it makes is of no use.
#[derive(Drop)]
pub(crate) struct Maker {
    pub(crate) alloc: Global,
    pub(crate) failed: bool,
}

impl Maker {
    /// One that made nothing yet.
    pub(crate) fn new(alloc: Global) -> Maker
        ensures { result.failed ≡ false }
    {
        Maker {
            alloc,
            failed: false,
        }
    }

    /// What was made, where memory was never wanting.
    pub(crate) fn made(&self, value: Term) -> Result<Term, AllocError>
        ensures { IfOk result (λ v. (self.now.failed ≡ false) × (v ≡ value)) }
    {
        if self.failed {
            return Err(AllocError);
        }
        Ok(value)
    }

    /// What was told, where memory was never wanting. A fault stands whether it was or not.
    pub(crate) fn answer(&self, told: Result<Term, FaultKind>) -> Result<Term, OpStop>
        ensures { (a : Answer Tree) → Tells self.now.failed a told → Answers a result }
    {
        let value = told?;
        Ok(self.made(value)?)
    }

    /// An equal process.
    pub(crate) fn copy(&mut self, term: &Term) -> Term
        ensures { self.new.failed ≡ false → (self.old.failed ≡ false) × (result ≡ term.now) }
    {
        match term.copy(self.alloc) {
            Ok(copy) => copy,
            Err(_) => {
                self.failed = true;
                Term::nil(self.alloc)
            }
        }
    }

    /// A list that was put in order.
    pub(crate) fn list<T: Drop>(&mut self, ordered: Result<Vec<T>, AllocError>) -> Vec<T>
        ensures { self.new.failed ≡ false → (self.old.failed ≡ false) × (ordered ≡ Ok result) }
    {
        match ordered {
            Ok(items) => items,
            Err(_) => {
                self.failed = true;
                Vec::new(self.alloc)
            }
        }
    }

    /// One more item, at the end of these.
    pub(crate) fn add<T: Drop>(&mut self, items: &mut Vec<T>, item: T)
        ensures { self.new.failed ≡ false → (self.old.failed ≡ false) × (items.new.items ≡ items.old.items ++ item ∷ []) }
    {
        match items.push(item) {
            Ok(()) => {}
            Err(_) => self.failed = true,
        }
    }

    /// Equal processes, at the end of these.
    pub(crate) fn add_copies(&mut self, copies: &mut Vec<Term>, terms: &[Term])
        ensures { self.new.failed ≡ false → (self.old.failed ≡ false) × (copies.new.items ≡ copies.old.items ++ terms.now) }
    {
        for term in terms {
            let copy = self.copy(term);
            self.add(copies, copy);
        }
    }

    /// The value of this one part. Members of a set or a map ascend in their codes.
    pub(crate) fn value(&mut self, part: Part) -> Term
        requires { self.old.failed ≡ false → IsOrdered (part_tree part) }
        ensures { self.new.failed ≡ false → (self.old.failed ≡ false) × (result ≡ only (part_tree part)) }
    {
        if self.failed {
            return Term::nil(self.alloc);
        }
        match Term::from_part(self.alloc, part) {
            Ok(value) => value,
            Err(_) => {
                self.failed = true;
                Term::nil(self.alloc)
            }
        }
    }
}
