// A group of rows, as the tree has it.
ghost use Rattle.std.specs.Prelude.{◌≡◌, ◌≤◌, ◌+◌, map};
ghost use Rattle.radix_root.specs.Leaves.{group_digest};
ghost use Rattle.radix_root.specs.Groups.{given};

use crate::digests::leaf_digest;
use calculus::{Digest, Steps};
use std::sync::ledger::Ledger;

/// The key of a group of rows, and the group's digest where it has rows.
#[derive(Clone, Copy, Debug)]
pub struct Group {
    pub key: Digest,
    pub digest: Option<Digest>,
}

impl Group {
    /// The group of this key with these codes of rows, which ascend. Its digest is one more step, where it has rows.
    pub fn of<L: Ledger>(key: &Digest, rows: &[&[u8]], steps: &mut Steps<L>) -> Group
        ensures key { result.key.0 ≡ key.now.0 }
        ensures digest { given result.digest ≡ group_digest key.now.0 (map (λ r. r.now) rows.now) }
        ensures counted { steps.new ≤ steps.old + 1 }
    {
        let digest = if rows.is_empty() {
            None
        } else {
            Some(leaf_digest(key, rows, steps))
        };
        Group { key: *key, digest }
    }
}
