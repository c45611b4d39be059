// Lists of numbers, one behind the other.
ghost use Rattle.std.specs.Prelude.{◌≡◌, ◌<◌, ◌++◌, ◌∷◌, [], List, ℕ, Some, length, take, IfOk};
ghost use Rattle.replay_space.specs.Rigs.{items_of, joined, list_of, AreLists};

use std::alloc::{AllocError, Global};

/// Lists of numbers, one behind the other, and the numbers of one that has not ended.
#[derive(Drop)]
pub(crate) struct Lists {
    // Where each list ends among the values.
    ends: Vec<usize>,
    values: Vec<u32>,
}

impl Lists {
    /// No lists.
    pub(crate) fn new(alloc: Global) -> Lists
        ensures { AreLists [] [] result }
    {
        Lists {
            ends: Vec::new(alloc),
            values: Vec::new(alloc),
        }
    }

    /// A number comes to the list that has not ended. Want of memory is the one error.
    pub(crate) fn push(&mut self, value: u32) -> Result<(), AllocError>
        ensures { (ls : List (List ℕ)) (l : List ℕ) → AreLists ls l self.old → IfOk result (λ _. AreLists ls (l ++ value ∷ []) self.new) }
    {
        self.values.push(value)?;
        Ok(())
    }

    /// Ends a list. Want of memory is the one error.
    pub(crate) fn end_list(&mut self) -> Result<(), AllocError>
        ensures { (ls : List (List ℕ)) (l : List ℕ) → AreLists ls l self.old → IfOk result (λ _. AreLists (ls ++ l ∷ []) [] self.new) }
    {
        let end = self.values.len();
        self.ends.push(end)?;
        Ok(())
    }

    /// Adds a list. Want of memory is the one error.
    pub(crate) fn add(&mut self, list: &[u32]) -> Result<(), AllocError>
        ensures { (ls : List (List ℕ)) → AreLists ls [] self.old → IfOk result (λ _. AreLists (ls ++ list.now ∷ []) [] self.new) }
    {
        for value in list {
            self.push(*value)?;
        }
        self.end_list()
    }

    /// These lists. Want of memory is the one error.
    pub(crate) fn from_vecs(alloc: Global, vecs: Vec<Vec<u32>>) -> Result<Lists, AllocError>
        ensures { IfOk result (AreLists (items_of vecs.items) []) }
    {
        let mut lists = Lists::new(alloc);
        for list in vecs {
            lists.add(list.as_slice())?;
        }
        Ok(lists)
    }

    /// The lists that end at these places among these numbers. Nothing is known of them.
    pub(crate) fn from_ends(ends: Vec<usize>, values: Vec<u32>) -> Lists {
        Lists { ends, values }
    }

    // Where the list of this number begins: where the one before it ends.
    fn start(&self, number: usize) -> usize
        ensures { (ls : List (List ℕ)) → AreLists ls [] self.now → number < length ls → result ≡ length (joined (take number ls)) }
    {
        if number == 0 {
            return 0;
        }
        match self.ends.get(number - 1) {
            Some(end) => *end,
            None => 0,
        }
    }

    /// The list of this number; empty where there is none.
    pub(crate) fn at(&self, number: u32) -> &[u32]
        ensures { (ls : List (List ℕ)) → AreLists ls [] self.now → result.now ≡ list_of ls (Some number) }
    {
        let number = number as usize;
        let Some(end) = self.ends.get(number) else {
            return &[];
        };
        match self.values.get(self.start(number)..*end) {
            Some(list) => list,
            None => &[],
        }
    }
}
