//! Terms that no source spells.
use calculus::{Ground, Kind};
use code_order::make_par;
use rho_term::{Part, PatPart, Term, TermBind, TermPat, TermRest};
use std::alloc::{AllocError, Global};

/// Makes terms. Where memory is wanting once, what is made then stands for nothing, and this is kept.
#[derive(Clone, Copy)]
pub struct Maker {
    pub alloc: Global,
    pub lacks_memory: bool,
}

// The pattern of a variable.
fn variable(alloc: Global) -> Result<TermPat, AllocError> {
    let mut parts = Vec::new(alloc);
    parts.push(PatPart::Var)?;
    Ok(TermPat::new(parts))
}

// The pattern of a list of a variable and more.
fn list_pattern(alloc: Global) -> Result<TermPat, AllocError> {
    let mut members = Vec::new(alloc);
    members.push(variable(alloc)?)?;
    let mut parts = Vec::new(alloc);
    parts.push(PatPart::List(members, TermRest::Var))?;
    Ok(TermPat::new(parts))
}

impl Maker {
    /// Takes up whether memory was there.
    pub fn take_up(&mut self, done: Result<(), AllocError>) {
        if done.is_err() {
            self.lacks_memory = true;
        }
    }

    /// The term that was made, and the empty process where none was.
    pub fn kept(&mut self, made: Result<Term, AllocError>) -> Term {
        match made {
            Ok(term) => term,
            Err(_) => {
                self.lacks_memory = true;
                Term::nil(self.alloc)
            }
        }
    }

    /// Adds a value.
    pub fn add<T: Drop>(&mut self, all: &mut Vec<T>, value: T) {
        if all.push(value).is_err() {
            self.lacks_memory = true;
        }
    }

    /// A list of one value.
    pub fn list<T: Drop>(&mut self, value: T) -> Vec<T> {
        let mut all = Vec::new(self.alloc);
        self.add(&mut all, value);
        all
    }

    pub fn int(&mut self, n: i64) -> Term {
        let made = Term::from_part(self.alloc, Part::Ground(Ground::Int(n)));
        self.kept(made)
    }

    /// The process of one part.
    pub fn one(&mut self, part: Part) -> Term {
        let parts = self.list(part);
        let made = make_par(self.alloc, parts);
        self.kept(made)
    }

    /// A number inside so many lists.
    pub fn in_lists(&mut self, count: u32) -> Term {
        let mut term = self.int(1);
        for _ in 0..count {
            let members = self.list(term);
            term = self.one(Part::List(members));
        }
        term
    }

    /// Sets of two members, nested 300 deep around a process.
    pub fn in_sets(&mut self, inner: Term) -> Term {
        let mut term = inner;
        for n in 0..300_i64 {
            let mut members = self.list(term);
            let number = self.int(n);
            self.add(&mut members, number);
            term = self.one(Part::Set(members));
        }
        term
    }

    // A list of one pattern that was made.
    fn pats(&mut self, made: Result<TermPat, AllocError>) -> Vec<TermPat> {
        match made {
            Ok(pat) => self.list(pat),
            Err(_) => {
                self.lacks_memory = true;
                Vec::new(self.alloc)
            }
        }
    }

    /// The bind of `@[x, ...@r]` on the number 1.
    pub fn bind(&mut self) -> TermBind {
        let made = list_pattern(self.alloc);
        let pats = self.pats(made);
        let channel = self.int(1);
        let rest = TermRest::No;
        TermBind {
            pats,
            rest,
            channel,
        }
    }

    /// @3!(..) with the process variables of these indices.
    pub fn variables_sent(&mut self, indices: &[u32]) -> Term {
        let mut args = Vec::new(self.alloc);
        for index in indices {
            let arg = self.one(Part::Var(*index));
            self.add(&mut args, arg);
        }
        let channel = self.int(3);
        let persistent = false;
        self.one(Part::Send {
            channel,
            args,
            persistent,
        })
    }

    /// for (@c <- @1) { body }
    pub fn received(&mut self, body: Term) -> Term {
        let made = variable(self.alloc);
        let pats = self.pats(made);
        let rest = TermRest::No;
        let channel = self.int(1);
        let binds = self.list(TermBind {
            pats,
            rest,
            channel,
        });
        let kind = Kind::Linear;
        self.one(Part::Receive { kind, binds, body })
    }
}
