// The variables in scope.

ghost use Rattle.std.specs.Prelude.{◌≡◌, ◌≤◌, ◌-◌, ◌++◌, ◌∷◌, [], length, drop, map, string_bytes, Some, None, MatchOption, IfSome, OnOk};
ghost use Rattle.calculus.specs.Bare.{index};
ghost use Rattle.scope.specs.Binding.{sense_of};
ghost use Rattle.scope_names.specs.Senses.{sense};

use crate::Names;
use std::alloc::{AllocError, Global};
use std::marker::Model;

/// What a variable stands for.
#[derive(Clone, Copy, Debug, PartialEq, Eq)]
pub enum Role {
    Process,
    Name,
}

/// What a name stands for: the number of variables that are bound after it, and its role.
#[derive(Clone, Copy, Debug, PartialEq, Eq)]
pub struct Found {
    pub index: u32,
    pub role: Role,
}

/// Variables in scope, seen as their names and senses, the last one bound first.
#[derive(Drop)]
pub struct Variables {
    names: Names,
    // What each name stands for, the first one bound first.
    roles: Vec<Role>,
}

impl Model for Variables {
    ghost use Rattle.std.specs.Prelude.{◌≡◌, length};
    ghost use Rattle.scope.specs.Binding.{Scope};
    ghost use Rattle.scope_names.specs.Senses.{scope_code};

    ghost Value = { Scope };

    ghost coded = { scope_code };

    ghost use Rattle.scope_names.specs.Bound.{scope_of};

    ghost view = { λ v. scope_of v.names v.roles.items };

    ghost invariant = { λ v. length v.names ≡ length v.roles.items };
}

impl Variables {
    /// No variables. It takes no memory.
    pub fn new(alloc: Global) -> Variables
        ensures { result ≡ [] }
    {
        Variables {
            names: Names::new(alloc),
            roles: Vec::new(alloc),
        }
    }

    /// How many there are.
    pub fn len(&self) -> usize
        ensures { result ≡ length self.now }
    {
        self.roles.len()
    }

    /// The last variable of a name.
    pub fn find(&self, name: &str) -> Option<Found>
        ensures sense { MatchOption result (sense_of name.now self.now ≡ None) (λ f. sense_of name.now self.now ≡ Some (sense f.role)) }
        ensures index { IfSome result (λ f. f.index ≡ index name.now (map (λ v. v.0) self.now)) }
    {
        let count = self.roles.len();
        let index = self.names.index(name);
        let after = index as usize;
        if after >= count {
            return None;
        }
        let role = self.roles[count - 1 - after];
        Some(Found { index, role })
    }

    /// One more variable. Want of memory is the one error; so is a number of variables that 32 bits
    /// cannot hold.
    pub fn bind(&mut self, name: &String, role: Role) -> Result<(), AllocError>
        ensures { OnOk result (self.new ≡ (string_bytes name.now, sense role) ∷ self.old) }
    {
        self.roles.reserve(1)?;
        self.names.bind(name)?;
        self.roles.push_reserved(role);
        Ok(())
    }

    /// All of these, in the order in which they were bound. The errors are those of `bind`.
    pub fn enter(&mut self, inner: Variables) -> Result<(), AllocError>
        ensures { OnOk result (self.new ≡ inner ++ self.old) }
    {
        let outside = self.roles.len();
        let mut roles = inner.roles;
        self.names.enter(inner.names)?;
        if self.roles.append(&mut roles).is_err() {
            self.names.leave(outside);
            return Err(AllocError);
        }
        Ok(())
    }

    /// Drops all variables but the first `len` that were bound.
    pub fn leave(&mut self, len: usize)
        requires { len ≤ length self.old }
        ensures { self.new ≡ drop (length self.old - len) self.old }
    {
        self.names.leave(len);
        self.roles.truncate(len);
    }
}
