ghost use Rattle.std.specs.Prelude.{◌≡◌, ◌≤◌, ◌<◌, ◌-◌, ◌++◌, ◌∷◌, [], length, drop, string_bytes, OnOk, OnErr};
ghost use Rattle.calculus.specs.Bare.{index};

use std::alloc::{AllocError, Global};
use std::collections::BTreeMap;
use std::marker::Model;

// A name, and the place of the last equal one before it, counted from 1; 0 where there is none.
#[derive(Drop)]
struct Bound {
    name: String,
    before: u32,
}

/// Names in scope, seen as their bytes, the last one bound first. There are fewer than 2^32.
///
/// An index is found by one look-up in an ordered map, so its cost grows with the logarithm of the number of
/// names, whatever they are.
#[derive(Drop)]
pub struct Names {
    bound: Vec<Bound>,
    // The place of the last of equal names, counted from 1; 0 where none is in scope.
    last: BTreeMap<String, u32>,
}

impl Model for Names {
    ghost use Rattle.std.specs.Prelude.{ℕ, List};
    ghost use Rattle.std.specs.Coded.{coded_list, coded_ℕ};

    ghost Value = { List (List ℕ) };

    ghost coded = { coded_list (coded_list coded_ℕ) };

    ghost use Rattle.scope_names.specs.Places.{names_of, IsIndexed};

    ghost view = { λ n. names_of n.bound.items };

    ghost invariant = { λ n. IsIndexed n.bound.items n.last };
}

impl Names {
    /// No names. It takes no memory.
    pub fn new(alloc: Global) -> Names
        ensures { result ≡ [] }
    {
        Names {
            bound: Vec::new(alloc),
            last: BTreeMap::new(alloc),
        }
    }

    /// How many there are.
    pub fn len(&self) -> usize
        ensures { result ≡ length self.now }
    {
        self.bound.len()
    }

    /// How many names are bound after the last one that is this, or how many there are where none is.
    pub fn index(&self, name: &str) -> u32
        ensures { result ≡ index name.now self.now }
    {
        let place = self.last.get(name).copied().unwrap_or(0);
        self.bound.len() as u32 - place
    }

    /// One more name. Want of memory is the one error; so is a number of names that 32 bits cannot
    /// hold. At an error the names are as before.
    pub fn bind(&mut self, name: &String) -> Result<(), AllocError>
        ensures ok { OnOk result (self.new ≡ string_bytes name.now ∷ self.old) }
        ensures err { OnErr result (self.new ≡ self.old) }
    {
        let name = name.clone()?;
        self.put(name)
    }

    /// All of these, in the order in which they were bound. The errors are those of `bind`.
    pub fn enter(&mut self, inner: Names) -> Result<(), AllocError>
        ensures ok { OnOk result (self.new ≡ inner ++ self.old) }
        ensures err { OnErr result (self.new ≡ self.old) }
    {
        let outside = self.len();
        for bound in inner.bound {
            if self.put(bound.name).is_err() {
                self.leave(outside);
                return Err(AllocError);
            }
        }
        Ok(())
    }

    /// Drops all names but the first `len` that were bound.
    pub fn leave(&mut self, len: usize)
        requires { len ≤ length self.old }
        ensures { self.new ≡ drop (length self.old - len) self.old }
    {
        while self.len() > len {
            self.leave_last();
        }
    }

    // One more name, which is taken.
    fn put(&mut self, name: String) -> Result<(), AllocError>
        ensures ok { OnOk result (self.new ≡ string_bytes name ∷ self.old) }
        ensures err { OnErr result (self.new ≡ self.old) }
    {
        if self.bound.len() >= u32::MAX as usize {
            return Err(AllocError);
        }
        self.bound.reserve(1)?;
        let place = self.bound.len() as u32 + 1;
        let key = name.clone()?;
        let before = match self.last.insert(key, place) {
            Ok(before) => before.unwrap_or(0),
            Err(_) => return Err(AllocError),
        };
        self.bound.push_reserved(Bound { name, before });
        Ok(())
    }

    // Drops the name that was bound last.
    fn leave_last(&mut self)
        requires { 0 < length self.old }
        ensures { self.new ≡ drop 1 self.old }
    {
        let Some(bound) = self.bound.pop() else {
            unreachable!()
        };
        match self.last.insert(bound.name, bound.before) {
            Ok(_) => {}
            Err(_) => unreachable!(),
        }
    }
}
