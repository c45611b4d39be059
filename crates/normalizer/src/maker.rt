// Steps of which terms are made. What makes them remembers that memory was wanting.

ghost use Rattle.std.specs.Prelude.{◌≡◌, ◌≤◌, ◌-◌, [], ◌∷◌, ◌++◌, false, length, drop, map, string_bytes, IfOk, All};
ghost use Rattle.calculus.specs.Bare.{index as place, names as names_bound, all_names, declared_origin};
ghost use Rattle.calculus.specs.Meaning.{ground_label, declared, pat_written, bind_written};
ghost use Rattle.calculus.specs.Written.{writtens};
ghost use Rattle.code_order.specs.Made.{made_process, reordered};
ghost use Rattle.rho_term.specs.Normal.{IsOrdered};
ghost use Rattle.rho_term.specs.Parts.{part_tree, pat_part_tree, pat_tree};
ghost use Rattle.normalizer.specs.Making.{Made, Joined};

use calculus::{Bind, Decl, Ground, Origin, Pat};
use code_order::make_par;
use normal_parts::{bind_binds, bind_declared, bind_pattern, closed_parts, copy_ground, origins};
use rho_term::{Part, PatPart, Term, TermPat};
use scope_names::Names;
use std::alloc::{AllocError, Global};

/// What makes terms in a scope. Once memory was wanting, what it makes is of no use.
#[derive(Drop)]
pub(crate) struct Maker {
    pub(crate) alloc: Global,
    scope: Names,
    failed: bool,
}

impl Maker {
    /// One that made nothing yet, with no name in scope.
    pub(crate) fn new(alloc: Global) -> Maker
        ensures failed { result.failed ≡ false }
        ensures scope { result.scope ≡ [] }
    {
        Maker {
            alloc,
            scope: Names::new(alloc),
            failed: false,
        }
    }

    /// What was made, where memory was never wanting.
    pub(crate) fn made<T: Drop>(&self, value: T) -> Result<T, AllocError>
        ensures { IfOk result (λ v. (self.now.failed ≡ false) × (v ≡ value)) }
    {
        if self.failed {
            return Err(AllocError);
        }
        Ok(value)
    }

    /// One more item, at the end of these.
    pub(crate) fn add<T: Drop>(&mut self, items: &mut Vec<T>, item: T)
        ensures { Made self.old self.new (items.new.items ≡ items.old.items ++ item ∷ []) }
    {
        match items.push(item) {
            Ok(()) => {}
            Err(_) => self.failed = true,
        }
    }

    // More items, at the end of these.
    fn join<T: Drop>(&mut self, items: &mut Vec<T>, more: Vec<T>)
        ensures { Made self.old self.new (items.new.items ≡ items.old.items ++ more.items) }
    {
        let mut more = more;
        match items.append(&mut more) {
            Ok(()) => {}
            Err(_) => self.failed = true,
        }
    }

    /// These parts as closed forms, each in order, at the end of those.
    pub(crate) fn add_closed(&mut self, parts: &mut Vec<PatPart>, forms: Vec<Part>)
        ensures { Made self.old self.new
            (map pat_part_tree parts.new.items ≡ map pat_part_tree parts.old.items ++ map (λ p. reordered (part_tree p)) forms.items) }
    {
        match closed_parts(self.alloc, forms) {
            Ok(closed) => self.join(parts, closed),
            Err(_) => self.failed = true,
        }
    }

    /// The same text.
    pub(crate) fn text(&mut self, text: &String) -> String
        ensures { Made self.old self.new (string_bytes result ≡ string_bytes text.now) }
    {
        match text.clone() {
            Ok(copy) => copy,
            Err(_) => {
                self.failed = true;
                String::new(self.alloc)
            }
        }
    }

    /// An equal ground value.
    pub(crate) fn ground(&mut self, value: &Ground) -> Ground
        ensures { Made self.old self.new (ground_label result ≡ ground_label value.now) }
    {
        match copy_ground(value) {
            Ok(copy) => copy,
            Err(_) => {
                self.failed = true;
                Ground::Bool(false)
            }
        }
    }

    /// What a `new` makes of each declared name.
    pub(crate) fn origins(&mut self, names: &Vec<Decl>) -> Vec<Origin>
        ensures { Made self.old self.new (result.items ≡ map (λ d. declared_origin d.1) (map declared names.now.items)) }
    {
        match origins(self.alloc, names) {
            Ok(origins) => origins,
            Err(_) => {
                self.failed = true;
                Vec::new(self.alloc)
            }
        }
    }

    /// The process of these parts, in order.
    pub(crate) fn process(&mut self, parts: Vec<Part>) -> Term
        ensures { Made self.old self.new (result ≡ made_process (map part_tree parts.items)) }
    {
        match make_par(self.alloc, parts) {
            Ok(term) => term,
            Err(_) => {
                self.failed = true;
                Term::nil(self.alloc)
            }
        }
    }

    /// The pattern of these parts.
    pub(crate) fn pattern(&self, parts: Vec<PatPart>) -> TermPat
        requires { self.now.failed ≡ false → All (λ p. IsOrdered (pat_part_tree p)) parts.items }
        ensures { self.now.failed ≡ false → result ≡ pat_tree parts.items }
    {
        if self.failed {
            return TermPat::new(Vec::new(self.alloc));
        }
        TermPat::new(parts)
    }

    /// How many names in scope are bound after the last one that is this, or how many there are where
    /// none is.
    pub(crate) fn index(&self, name: &String) -> u32
        ensures { result ≡ place (string_bytes name.now) self.now.scope }
    {
        self.scope.index(name.as_str())
    }

    /// How many names are in scope.
    pub(crate) fn depth(&self) -> usize
        ensures { result ≡ length self.now.scope }
    {
        self.scope.len()
    }

    /// The names of the binds of a receive are in scope too.
    pub(crate) fn bind_binds(&mut self, binds: &Vec<Bind>)
        ensures { Joined self.old self.new (all_names (writtens (map bind_written binds.now.items))) }
    {
        match bind_binds(&mut self.scope, binds) {
            Ok(()) => {}
            Err(_) => self.failed = true,
        }
    }

    /// The names that a `new` declares are in scope too.
    pub(crate) fn bind_declared(&mut self, names: &Vec<Decl>)
        ensures { Joined self.old self.new (map (λ d. d.0) (map declared names.now.items)) }
    {
        match bind_declared(&mut self.scope, names) {
            Ok(()) => {}
            Err(_) => self.failed = true,
        }
    }

    /// The names of a pattern are in scope too.
    pub(crate) fn bind_pattern(&mut self, p: &Pat)
        ensures { Joined self.old self.new (names_bound (pat_written p.now)) }
    {
        match bind_pattern(&mut self.scope, p) {
            Ok(()) => {}
            Err(_) => self.failed = true,
        }
    }

    /// Only the first `outside` names are in scope again.
    pub(crate) fn leave(&mut self, outside: usize)
        requires { self.old.failed ≡ false → outside ≤ length self.old.scope }
        ensures { self.new.failed ≡ false → (self.old.failed ≡ false)
            × (self.new.scope ≡ drop (length self.old.scope - outside) self.old.scope) }
    {
        if !self.failed {
            self.scope.leave(outside);
        }
    }
}
