// A node of the tree: no group, one group, or the nodes of half bytes that hold several.

ghost use Rattle.std.specs.Prelude.{◌≡◌, ◌<◌, ◌≤◌, ◌+◌, ℕ, List, [], ◌∷◌, cond, true, false, length, IfOk, IfSome, IfNone, OnOk, OnErr};
ghost use Rattle.std.specs.Str.{bytes_eq};
ghost use Rattle.radix_root.specs.Leaves.{digest_at};
ghost use Rattle.radix_root.specs.Nodes.{AllShare, IsFork, IsNode, IsPlace, NoneHas, leaves_of};
ghost use Rattle.radix_root.specs.Groups.{given};
ghost use Rattle.radix_root.specs.Holding.{IsHeld};

use crate::digests::{NO_GROUP, fork_digest, half_at, known_length};
use crate::group::Group;
use crate::held::{Held, held_by};
use calculus::{Digest, Steps};
use std::alloc::{AllocError, Global};
use std::marker::Model;
use std::mem;
use std::sync::ledger::Ledger;

/// The groups whose keys share their first half bytes.
pub(crate) struct Node {
    /// The digest of the groups.
    digest: Digest,
    /// The key, where there is one group.
    key: Option<Digest>,
    /// The last half byte that the keys share.
    half: u8,
    /// How many half bytes the keys share.
    depth: u32,
    /// The nodes of the half bytes that follow, where there are several groups.
    children: Vec<Node>,
}

impl Drop for Node {
    fn drop(self) {
        let Node {
            digest: _,
            key: _,
            half: _,
            depth: _,
            children: _children,
        } = self;
    }
}

impl Model for Node {
    ghost use Rattle.std.specs.Prelude.{◌++◌};
    ghost use Rattle.radix_root.specs.Nodes.{Seen, own_leaf, leaves_of, height_of, IsWell};

    ghost Value = { Seen };

    ghost view = { λ a. record {
      depth = a.depth;
      half = a.half;
      digest = a.digest.0;
      leaves = own_leaf a.key a.digest.0 ++ leaves_of a.children.items;
      height = height_of a.children.items;
    } };

    ghost invariant = { λ a. IsWell a.depth a.digest.0 a.key a.children.items };

    ghost size = { λ s. s.height };
}

impl Node {
    /// A node without groups.
    pub(crate) fn empty(alloc: Global, half: u8, depth: u32) -> Node
        requires { depth ≤ 64 }
        ensures node { IsNode depth result }
        ensures half { result.half ≡ half }
        ensures leaves { result.leaves ≡ [] }
    {
        Node {
            digest: NO_GROUP,
            key: None,
            half,
            depth,
            children: Vec::new(alloc),
        }
    }

    /// The digest that the node keeps.
    pub(crate) fn digest(&self) -> Digest
        ensures { result.0 ≡ self.now.digest }
    {
        self.digest
    }

    /// The last half byte that the keys share.
    fn half(&self) -> u8
        ensures { result ≡ self.now.half }
    {
        self.half
    }

    /// How many half bytes the keys share.
    pub(crate) fn depth(&self) -> u32
        ensures { result ≡ self.now.depth }
    {
        self.depth
    }

    /// The node and all that is below it, with new memory.
    pub(crate) fn copy(&self, alloc: Global) -> Result<Node, AllocError>
        ensures { IfOk result (λ c. c ≡ self.now) }
    {
        let mut children = Vec::new(alloc);
        for child in &self.children {
            children.push(child.copy(alloc)?)?;
        }
        Ok(Node {
            digest: self.digest,
            key: self.key,
            half: self.half,
            depth: self.depth,
            children,
        })
    }

    /// What the node holds.
    pub(crate) fn held(&self) -> Held
        ensures { IsHeld result self.now.leaves }
    {
        if !self.children.is_empty() {
            return Held::Several;
        }
        match self.key {
            Some(key) => Held::One(key, self.digest),
            None => Held::Nothing,
        }
    }

    /// Gives a group its digest, or takes it out where it has none, if no node below has to know. Tells whether that is
    /// done.
    fn hold(&mut self, group: &Group) -> bool
        requires { AllShare self.old.depth group.now.key.0 self.old.leaves }
        ensures node { IsNode self.old.depth self.new }
        ensures half { self.new.half ≡ self.old.half }
        ensures groups { result ≡ true → (k : List ℕ) → digest_at self.new.leaves k ≡
            cond (bytes_eq k group.now.key.0) (given group.now.digest) (digest_at self.old.leaves k) }
        ensures other { result ≡ false → (self.new ≡ self.old) × (self.old.depth < 64) }
        ensures within { self.old.depth ≤ 64 }
    {
        if !self.children.is_empty() {
            return false;
        }
        known_length(&group.key.0);
        let current = self.key;
        let found = group.digest;
        match current {
            Some(own) if own != group.key => found.is_none(),
            _ => match found {
                Some(digest) => {
                    known_length(&digest.0);
                    self.key = Some(group.key);
                    self.digest = digest;
                    true
                }
                None => {
                    self.key = None;
                    self.digest = NO_GROUP;
                    true
                }
            },
        }
    }

    /// Gives a group its digest, or takes it out where it has none. Each digest of a node is one more step. After an
    /// error the groups are as they were.
    #[cycle(put)]
    pub(crate) fn put<L: Ledger>(
        &mut self,
        alloc: Global,
        group: &Group,
        steps: &mut Steps<L>,
    ) -> Result<(), AllocError>
        requires { AllShare self.old.depth group.now.key.0 self.old.leaves }
        ensures node { IsNode self.old.depth self.new }
        ensures half { self.new.half ≡ self.old.half }
        ensures groups { OnOk result ((k : List ℕ) → digest_at self.new.leaves k ≡
            cond (bytes_eq k group.now.key.0) (given group.now.digest) (digest_at self.old.leaves k)) }
        ensures err { OnErr result (self.new.leaves ≡ self.old.leaves) }
        ensures counted { steps.new + self.old.depth ≤ steps.old + 64 }
    {
        if self.hold(group) {
            return Ok(());
        }
        let mut children = self.open(alloc, 2)?;
        let depth = self.depth();
        let done = put_below(alloc, &mut children, depth, group, steps);
        self.settle(children, steps);
        done
    }

    /// The nodes that are to be under it, with room for so many: those that were, or that of its one group. The node is
    /// without groups then.
    pub(crate) fn open(&mut self, alloc: Global, room: usize) -> Result<Vec<Node>, AllocError>
        requires { self.old.depth < 64 }
        ensures fork { IfOk result (λ v. IsFork self.old.depth v.items) }
        ensures leaves { IfOk result (λ v. leaves_of v.items ≡ self.old.leaves) }
        ensures depth { self.new.depth ≡ self.old.depth }
        ensures half { self.new.half ≡ self.old.half }
        ensures err { OnErr result (self.new ≡ self.old) }
    {
        let current = self.key;
        let children = match current {
            Some(own) => forked(alloc, room, self.depth, &own, &self.digest)?,
            None if self.children.is_empty() => Vec::with_capacity(alloc, room)?,
            None => mem::replace(&mut self.children, Vec::new(alloc)),
        };
        self.key = None;
        self.digest = NO_GROUP;
        Ok(children)
    }

    /// Puts these nodes under it, in place of what it holds. The digest of several groups is one more step.
    pub(crate) fn settle<L: Ledger>(&mut self, children: Vec<Node>, steps: &mut Steps<L>)
        requires { IsFork self.old.depth children.items }
        ensures node { IsNode self.old.depth self.new }
        ensures half { self.new.half ≡ self.old.half }
        ensures leaves { self.new.leaves ≡ leaves_of children.items }
        ensures counted { steps.new ≤ steps.old + 1 }
    {
        match held_by(children.as_slice()) {
            Held::Nothing => {
                self.children.clear();
                self.key = None;
                self.digest = NO_GROUP;
            }
            Held::One(last, digest) => {
                self.children.clear();
                self.key = Some(last);
                self.digest = digest;
            }
            Held::Several => {
                self.digest = fork_digest(children.as_slice(), steps);
                self.key = None;
                self.children = children;
            }
        }
    }

    /// A node with one group, of this key and this digest.
    fn leaf(alloc: Global, half: u8, depth: u32, key: &Digest, digest: &Digest) -> Node
        requires depth { depth ≤ 64 }
        requires sizes { (length key.now.0 ≡ 32) × (length digest.now.0 ≡ 32) }
        ensures node { IsNode depth result }
        ensures half { result.half ≡ half }
        ensures leaves { result.leaves ≡ (key.now.0, digest.now.0) ∷ [] }
    {
        Node {
            digest: *digest,
            key: Some(*key),
            half,
            depth,
            children: Vec::new(alloc),
        }
    }
}

/// Where the node of a half byte stands among these.
pub(crate) fn place_of(children: &[Node], half: u8) -> Option<usize>
    ensures within { IfSome result (λ i. i < length children.now) }
    ensures some { IfSome result (IsPlace half children.now) }
    ensures none { IfNone result (NoneHas half children.now) }
{
    for place in 0..children.len() {
        if children[place].half() == half {
            return Some(place);
        }
    }
    None
}

/// The nodes under a node at this depth that has a group of this key and this digest alone, with room for so many.
fn forked(
    alloc: Global,
    room: usize,
    depth: u32,
    key: &Digest,
    digest: &Digest,
) -> Result<Vec<Node>, AllocError>
    requires depth { depth < 64 }
    requires sizes { (length key.now.0 ≡ 32) × (length digest.now.0 ≡ 32) }
    ensures fork { IfOk result (λ v. IsFork depth v.items) }
    ensures leaves { IfOk result (λ v. leaves_of v.items ≡ (key.now.0, digest.now.0) ∷ []) }
{
    let mut children = Vec::with_capacity(alloc, room)?;
    let half = half_at(key, depth);
    children.push(Node::leaf(alloc, half, depth + 1, key, digest))?;
    Ok(children)
}

/// Where the node of a half byte stands, which is put there without groups where there was none.
pub(crate) fn place_for(
    alloc: Global,
    children: &mut Vec<Node>,
    depth: u32,
    half: u8,
) -> Result<usize, AllocError>
    requires { IsFork depth children.old.items }
    ensures fork { IsFork depth children.new.items }
    ensures leaves { leaves_of children.new.items ≡ leaves_of children.old.items }
    ensures within { IfOk result (λ i. i < length children.new.items) }
    ensures place { IfOk result (IsPlace half children.new.items) }
{
    match place_of(children.as_slice(), half) {
        Some(place) => Ok(place),
        None => {
            let place = children.len();
            children.push(Node::empty(alloc, half, depth + 1))?;
            Ok(place)
        }
    }
}

/// Whether a group has no digest and a key of which these nodes, under one at this depth, have none either.
fn is_gone(children: &[Node], depth: u32, group: &Group) -> bool
    requires { IsFork depth children.now }
    ensures { result ≡ true → (k : List ℕ) → digest_at (leaves_of children.now) k ≡
        cond (bytes_eq k group.now.key.0) (given group.now.digest) (digest_at (leaves_of children.now) k) }
{
    let found = group.digest;
    match found {
        Some(_) => false,
        None => place_of(children, half_at(&group.key, depth)).is_none(),
    }
}

/// Gives a group its digest, or takes it out where it has none, under a node at this depth.
#[cycle(put)]
fn put_below<L: Ledger>(
    alloc: Global,
    children: &mut Vec<Node>,
    depth: u32,
    group: &Group,
    steps: &mut Steps<L>,
) -> Result<(), AllocError>
    requires fork { IsFork depth children.old.items }
    requires shared { AllShare depth group.now.key.0 (leaves_of children.old.items) }
    ensures fork { IsFork depth children.new.items }
    ensures groups { OnOk result ((k : List ℕ) → digest_at (leaves_of children.new.items) k ≡
        cond (bytes_eq k group.now.key.0) (given group.now.digest) (digest_at (leaves_of children.old.items) k)) }
    ensures err { OnErr result (leaves_of children.new.items ≡ leaves_of children.old.items) }
    ensures counted { steps.new + (depth + 1) ≤ steps.old + 64 }
{
    if is_gone(children.as_slice(), depth, group) {
        return Ok(());
    }
    let half = half_at(&group.key, depth);
    let place = place_for(alloc, children, depth, half)?;
    children[place].put(alloc, group, steps)
}
