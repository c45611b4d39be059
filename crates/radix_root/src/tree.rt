ghost use Rattle.std.specs.Prelude.{◌≡◌, ◌≤◌, ◌+◌, ◌*◌, ℕ, List, [], length, map, IfOk, OnOk, OnErr};
ghost use Rattle.calculus.specs.Rows.{Row};
ghost use Rattle.calculus.specs.Root.{root};
ghost use Rattle.radix_root.specs.Leaves.{Keeps, changed, digest_at, groups_of};
ghost use Rattle.radix_root.specs.Groups.{digest_after};

use crate::digests::slices_of;
use crate::group::Group;
use crate::many::give_all;
use crate::node::Node;
use calculus::{Digest, Steps};
use std::alloc::{AllocError, Global};
use std::marker::Model;
use std::sync::ledger::Ledger;

/// The groups of the rows of a state, by their keys, with the root of these rows.
///
/// The tree keeps the digest of each group, and not its rows.
pub struct RadixTree {
    root: Node,
}

impl Drop for RadixTree {
    fn drop(self) {
        let RadixTree { root: _root } = self;
    }
}

impl Model for RadixTree {
    ghost use Rattle.radix_root.specs.Leaves.{Leaves};
    ghost use Rattle.radix_root.specs.Nodes.{IsNode};

    ghost Value = { Leaves };

    ghost view = { λ a. a.root.leaves };

    ghost invariant = { λ a. IsNode 0 a.root };
}

impl RadixTree {
    /// The tree of no rows.
    pub fn new(alloc: Global) -> RadixTree
        ensures { result ≡ [] }
    {
        RadixTree {
            root: Node::empty(alloc, 0, 0),
        }
    }

    /// An equal tree, with new memory. No digest is made.
    pub fn copy(&self, alloc: Global) -> Result<RadixTree, AllocError>
        ensures { IfOk result (λ t. t ≡ self.now) }
    {
        Ok(RadixTree {
            root: self.root.copy(alloc)?,
        })
    }

    /// The root of the rows.
    pub fn root(&self) -> Digest
        ensures { (rs : List Row) → Keeps self.now (groups_of rs) → result.0 ≡ root rs }
    {
        self.root.digest()
    }

    /// Makes these the codes of the rows of this key. The codes ascend, and where there are none, the key has no rows
    /// from then on. Each digest of a node that is made is one more step, and at most 65 are.
    ///
    /// The only error is want of memory, and the tree is then as it was.
    pub fn change<L: Ledger>(
        &mut self,
        alloc: Global,
        key: &Digest,
        rows: &[Vec<u8>],
        steps: &mut Steps<L>,
    ) -> Result<(), AllocError>
        ensures rows { OnOk result ((f : List ℕ → List (List ℕ)) → Keeps self.old f →
            Keeps self.new (changed f key.now.0 (map (λ r. r.items) rows.now))) }
        ensures err { OnErr result (self.new ≡ self.old) }
        ensures counted { steps.new ≤ steps.old + 65 }
    {
        let codes = slices_of(alloc, rows)?;
        let group = Group::of(key, codes.as_slice(), steps);
        self.root.put(alloc, &group, steps)
    }

    /// The tree after these groups are given, one after another: each key has the digest that was given last, and none
    /// where the group given last has none. Each digest of a node above the groups is one more step, and at most 64 are
    /// made for each group. Want of memory is the one error.
    ///
    /// Where groups ascend in their keys, the digest of each node above them is made once.
    pub fn with_groups<L: Ledger>(
        self,
        alloc: Global,
        groups: &[Group],
        steps: &mut Steps<L>,
    ) -> Result<RadixTree, AllocError>
        ensures groups { IfOk result (λ t. (k : List ℕ) → digest_at t k ≡ digest_after groups.now (digest_at self k) k) }
        ensures counted { steps.new ≤ steps.old + 64 * length groups.now }
    {
        let RadixTree { mut root } = self;
        give_all(&mut root, alloc, groups, steps)?;
        Ok(RadixTree { root })
    }
}
