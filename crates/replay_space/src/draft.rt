// The ids that steps name, with their numbers and their uses.
ghost use Rattle.std.specs.Prelude.{◌≡◌, ◌<◌, ◌≤◌, ◌-◌, ◌+◌, ◌^◌, ◌++◌, ◌∷◌, [], List, length, IfOk};
ghost use Rattle.replay_space.specs.Rigs.{number_of, IsDraft};

use crate::naming::Naming;
use std::alloc::{AllocError, Global};
use std::collections::BTreeMap;

/// The number of each id.
pub(crate) type Numbers = BTreeMap<[u8; 32], u32>;

/// The ids that steps name: the number of each, the steps that name it under that number, and the number at each place of
/// what is named.
#[derive(Drop)]
pub(crate) struct Draft {
    pub(crate) numbers: Numbers,
    pub(crate) ids: Vec<[u8; 32]>,
    pub(crate) uses: Vec<Vec<u32>>,
    pub(crate) names: Vec<u32>,
}

// A list of one index.
fn one_index(alloc: Global, index: u32) -> Result<Vec<u32>, AllocError>
    ensures { IfOk result (λ v. v.items ≡ index ∷ []) }
{
    let mut list = Vec::new(alloc);
    list.push(index)?;
    Ok(list)
}

// So many zeros.
fn zeros(alloc: Global, count: usize) -> Result<Vec<u32>, AllocError> {
    let mut list = Vec::with_capacity(alloc, count)?;
    for _ in 0..count {
        list.push(0)?;
    }
    Ok(list)
}

// Writes the number at a place, if there is such a place.
fn write_at(names: &mut Vec<u32>, place: u32, number: u32) {
    if let Some(name) = names.get_mut(place as usize) {
        *name = number;
    }
}

impl Draft {
    /// What is kept of no namings, where so many come. Want of memory is the one error.
    pub(crate) fn new(alloc: Global, count: usize) -> Result<Draft, AllocError>
        ensures drafted { IfOk result (IsDraft []) }
        ensures none { IfOk result (λ d. length d.uses.items ≡ 0) }
    {
        let names = zeros(alloc, count)?;
        Ok(Draft {
            numbers: BTreeMap::new(alloc),
            ids: Vec::new(alloc),
            uses: Vec::new(alloc),
            names,
        })
    }

    // The number of an id, if it has one.
    fn number_of(&self, id: &[u8; 32]) -> Option<u32>
        ensures { result ≡ number_of self.now.numbers.entries id.now }
    {
        self.numbers.get(id).copied()
    }

    /// Adds a naming. Want of memory is the one error.
    pub(crate) fn add(&mut self, alloc: Global, naming: &Naming) -> Result<(), AllocError>
        requires few { length self.old.uses.items < 2 ^ 32 - 1 }
        requires drafted { (ns : List Naming) × IsDraft ns self.old }
        ensures drafted { (ns : List Naming) → IsDraft ns self.old → IfOk result (λ _. IsDraft (ns ++ naming.now ∷ []) self.new) }
        ensures few { IfOk result (λ _. length self.new.uses.items ≤ length self.old.uses.items + 1) }
    {
        let next = self.uses.len() as u32;
        match self.number_of(&naming.id) {
            Some(number) => {
                self.uses[number as usize].push(naming.step)?;
                write_at(&mut self.names, naming.place, number);
            }
            None => {
                let list = one_index(alloc, naming.step)?;
                self.numbers.insert(naming.id, next)?;
                self.ids.push(naming.id)?;
                self.uses.push(list)?;
                write_at(&mut self.names, naming.place, next);
            }
        }
        Ok(())
    }

    /// What is kept of these namings. Want of memory is the one error.
    pub(crate) fn from_namings(alloc: Global, namings: &[Naming]) -> Result<Draft, AllocError>
        requires { length namings.now < 2 ^ 32 - 1 }
        ensures { IfOk result (IsDraft namings.now) }
    {
        let mut draft = Draft::new(alloc, namings.len())?;
        for naming in namings {
            draft.add(alloc, naming)?;
        }
        Ok(draft)
    }
}
