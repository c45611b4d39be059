// The groups that change from a base to the next state.
ghost use Rattle.std.specs.Prelude.{◌≡◌, ◌≤◌, ◌+◌, ◌++◌, ◌∷◌, [], ℕ, List, Some, true, length, map, All, IfOk};
ghost use Rattle.calculus.specs.Order.{sorted};
ghost use Rattle.calculus.specs.Steps.{differ, is_one_of};
ghost use Rattle.radix_root.specs.Groups.{given};
ghost use Rattle.radix_root.specs.Leaves.{group_digest};
ghost use Rattle.next_states.specs.Pairs.{Pair, IsRight};
ghost use Rattle.next_states.specs.Walks.{Adds, Has, Holds, Once, Puts, Sets};

use calculus::{Digest, Steps};
use radix_root::{Group, slices_of};
use std::alloc::{AllocError, Global};
use std::collections::BTreeMap;
use std::sync::ledger::Ledger;

// The codes of groups, by their keys.
type Groups = BTreeMap<[u8; 32], Vec<Vec<u8>>>;

// The groups that change, with the codes that are gathered of them. Once memory was wanting, they are of no use.
#[derive(Drop)]
pub(crate) struct Changed {
    groups: Groups,
    failed: bool,
}

impl Changed {
    // No group changes.
    pub(crate) fn new(alloc: Global) -> Changed
        ensures bare { Holds result [] }
        ensures none { (k : List ℕ) → Has result k → ⊥ }
    {
        Changed {
            groups: BTreeMap::new(alloc),
            failed: false,
        }
    }

    // Remembers that memory was wanting.
    pub(crate) fn fail(&mut self)
        ensures { self.new.failed ≡ true }
    {
        self.failed = true;
    }

    // Whether memory was wanting.
    pub(crate) fn has_failed(&self) -> bool
        ensures { result ≡ self.now.failed }
    {
        self.failed
    }

    // One more item, at the end of these.
    pub(crate) fn keep<T: Drop>(&mut self, items: &mut Vec<T>, item: T)
        ensures { Once self.old self.new ((items.new.items ≡ items.old.items ++ item ∷ []) × (self.new ≡ self.old)) }
    {
        match items.push(item) {
            Ok(()) => {}
            Err(_) => self.failed = true,
        }
    }

    // These bytes, with new memory.
    fn copy_of(&mut self, alloc: Global, bytes: &[u8]) -> Vec<u8>
        ensures { Once self.old self.new ((result.items ≡ bytes.now) × (self.new ≡ self.old)) }
    {
        let mut copy = Vec::new(alloc);
        match copy.extend_from_slice(bytes) {
            Ok(()) => copy,
            Err(_) => {
                self.failed = true;
                copy
            }
        }
    }

    // Makes these the codes that are gathered of a key.
    fn set(&mut self, key: &Digest, codes: Vec<Vec<u8>>)
        ensures { Once self.old self.new (Sets self.old.groups key.now.0 (Some codes) self.new.groups) }
    {
        match self.groups.insert(key.0, codes) {
            Ok(_) => {}
            Err(_) => self.failed = true,
        }
    }

    // Makes the group of this key one that changes, while no codes are gathered.
    pub(crate) fn add(&mut self, alloc: Global, key: &Digest)
        ensures { Once self.old self.new (Adds self.old self.new key.now.0) }
    {
        self.set(key, Vec::new(alloc));
    }

    // Gathers the code of a row with this key, where its group changes.
    pub(crate) fn put(&mut self, alloc: Global, key: &Digest, code: &[u8])
        ensures { Once self.old self.new (Puts self.old self.new ((key.now.0, code.now) ∷ [])) }
    {
        match self.groups.remove(&key.0) {
            Some(codes) => {
                let mut codes = codes;
                let copy = self.copy_of(alloc, code);
                self.keep(&mut codes, copy);
                self.set(key, codes);
            }
            None => {}
        }
    }

    // The groups, each with the codes that are gathered of it. The digest of each is one more step.
    pub(crate) fn into_groups<L: Ledger>(
        self,
        alloc: Global,
        steps: &mut Steps<L>,
    ) -> Result<Vec<Group>, AllocError>
        ensures right { IfOk result (λ v. (ps : List Pair) → Holds self ps → All (IsRight ps) v.items) }
        ensures each { IfOk result (λ v. (k : List ℕ) → Has self k → is_one_of k (map (λ g. g.key.0) v.items) ≡ true) }
        ensures only { IfOk result (λ v. (k : List ℕ) → is_one_of k (map (λ g. g.key.0) v.items) ≡ true → Has self k) }
        ensures once { IfOk result (λ v. differ (map (λ g. g.key.0) v.items) ≡ true) }
        ensures counted { IfOk result (λ v. steps.new ≤ steps.old + length v.items) }
    {
        let mut groups = Vec::new(alloc);
        for (key, codes) in self.groups {
            let group = group_of(alloc, &Digest(key), codes, steps)?;
            groups.push(group)?;
        }
        Ok(groups)
    }
}

// The group of this key with these codes, in any order. Its digest is one more step, where it has rows.
fn group_of<L: Ledger>(
    alloc: Global,
    key: &Digest,
    mut codes: Vec<Vec<u8>>,
    steps: &mut Steps<L>,
) -> Result<Group, AllocError>
    ensures key { IfOk result (λ g. g.key.0 ≡ key.now.0) }
    ensures digest { IfOk result (λ g. given g.digest ≡ group_digest key.now.0 (sorted (map (λ c. c.items) codes.items))) }
    ensures counted { steps.new ≤ steps.old + 1 }
{
    codes.sort_by(|a, b| a.cmp(b))?;
    let slices = slices_of(alloc, codes.as_slice())?;
    Ok(Group::of(key, slices.as_slice(), steps))
}
