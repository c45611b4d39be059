// Many groups given to a node at once: the digest of each node above them is made once, where those with one half
// byte stand side by side.
ghost use Rattle.std.specs.Prelude.{◌≡◌, ◌<◌, ◌≤◌, ◌+◌, ◌-◌, ◌*◌, ℕ, List, length, take, OnOk};
ghost use Rattle.radix_root.specs.Leaves.{digest_at, half_of};
ghost use Rattle.radix_root.specs.Nodes.{IsFork, IsNode, leaves_of};
ghost use Rattle.radix_root.specs.Groups.{AllGroups, ShareAll, digest_after};

use crate::digests::half_at;
use crate::group::Group;
use crate::node::{Node, place_for};
use calculus::Steps;
use std::alloc::{AllocError, Global};
use std::sync::ledger::Ledger;

/// Gives each of these groups its digest, one after another. Each digest of a node is one more step.
#[cycle(give_all)]
pub(crate) fn give_all<L: Ledger>(
    node: &mut Node,
    alloc: Global,
    groups: &[Group],
    steps: &mut Steps<L>,
) -> Result<(), AllocError>
    requires node { IsNode node.old.depth node.old }
    requires shared { ShareAll node.old.depth node.old.leaves groups.now }
    ensures node { OnOk result (IsNode node.old.depth node.new) }
    ensures half { OnOk result (node.new.half ≡ node.old.half) }
    ensures groups { OnOk result ((k : List ℕ) → digest_at node.new.leaves k ≡ digest_after groups.now (digest_at node.old.leaves k) k) }
    ensures counted { steps.new ≤ steps.old + (64 - node.old.depth) * length groups.now }
{
    let depth = node.depth();
    if groups.len() <= 1 || depth >= 64 {
        return give_each(node, alloc, groups, steps);
    }
    let mut children = node.open(alloc, groups.len().min(16))?;
    give_runs(alloc, &mut children, depth, groups, steps)?;
    node.settle(children, steps);
    Ok(())
}

// The same, each by itself.
fn give_each<L: Ledger>(
    node: &mut Node,
    alloc: Global,
    groups: &[Group],
    steps: &mut Steps<L>,
) -> Result<(), AllocError>
    requires node { IsNode node.old.depth node.old }
    requires shared { ShareAll node.old.depth node.old.leaves groups.now }
    ensures node { OnOk result (IsNode node.old.depth node.new) }
    ensures half { OnOk result (node.new.half ≡ node.old.half) }
    ensures groups { OnOk result ((k : List ℕ) → digest_at node.new.leaves k ≡ digest_after groups.now (digest_at node.old.leaves k) k) }
    ensures counted { steps.new ≤ steps.old + (64 - node.old.depth) * length groups.now }
{
    for group in groups {
        node.put(alloc, group, steps)?;
    }
    Ok(())
}

// Gives each of these groups its digest, under a node at this depth.
#[cycle(give_all)]
fn give_runs<L: Ledger>(
    alloc: Global,
    children: &mut Vec<Node>,
    depth: u32,
    groups: &[Group],
    steps: &mut Steps<L>,
) -> Result<(), AllocError>
    requires fork { IsFork depth children.old.items }
    requires shared { ShareAll depth (leaves_of children.old.items) groups.now }
    ensures fork { OnOk result (IsFork depth children.new.items) }
    ensures groups { OnOk result ((k : List ℕ) → digest_at (leaves_of children.new.items) k ≡
        digest_after groups.now (digest_at (leaves_of children.old.items) k) k) }
    ensures counted { steps.new ≤ steps.old + (63 - depth) * length groups.now }
{
    let mut rest = groups;
    while !rest.is_empty() {
        let (half, len) = first_run(rest, depth);
        let (run, others) = rest.split_at(len);
        give_run(alloc, children, depth, half, run, steps)?;
        rest = others;
    }
    Ok(())
}

// The same, where the keys of all have this half byte.
#[cycle(give_all)]
fn give_run<L: Ledger>(
    alloc: Global,
    children: &mut Vec<Node>,
    depth: u32,
    half: u8,
    run: &[Group],
    steps: &mut Steps<L>,
) -> Result<(), AllocError>
    requires fork { IsFork depth children.old.items }
    requires shared { ShareAll depth (leaves_of children.old.items) run.now }
    requires half { AllGroups (λ k. half_of depth k ≡ half) run.now }
    requires some { 1 ≤ length run.now }
    ensures fork { OnOk result (IsFork depth children.new.items) }
    ensures groups { OnOk result ((k : List ℕ) → digest_at (leaves_of children.new.items) k ≡
        digest_after run.now (digest_at (leaves_of children.old.items) k) k) }
    ensures counted { steps.new ≤ steps.old + (63 - depth) * length run.now }
{
    let place = place_for(alloc, children, depth, half)?;
    give_all(&mut children[place], alloc, run, steps)
}

// The half byte at this place of the first key, and how many keys from the first on have it.
fn first_run(groups: &[Group], depth: u32) -> (u8, usize)
    requires depth { depth < 64 }
    requires some { 1 ≤ length groups.now }
    ensures half { AllGroups (λ k. half_of depth k ≡ result.0) (take result.1 groups.now) }
    ensures some { 1 ≤ result.1 }
    ensures within { result.1 ≤ length groups.now }
{
    let half = half_at(&groups[0].key, depth);
    for place in 1..groups.len() {
        if half_at(&groups[place].key, depth) != half {
            return (half, place);
        }
    }
    (half, groups.len())
}
