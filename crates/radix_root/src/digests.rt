// The digests of nodes, and the half bytes of keys.

ghost use Rattle.std.specs.Prelude.{◌≡◌, ◌<◌, ◌∷◌, ◌++◌, ◌+◌, length, map, IfOk};
ghost use Rattle.sha2.specs.Sha256.{sha256};
ghost use Rattle.calculus.specs.Bytes.{be32, joined};
ghost use Rattle.calculus.specs.Root.{sixteen};
ghost use Rattle.radix_root.specs.Leaves.{half_of};
ghost use Rattle.radix_root.specs.Nodes.{digest_under};

use crate::node::{Node, place_of};
use calculus::{Digest, Steps};
use sha2::{Digest as _, Sha256};
use std::alloc::{AllocError, Global};
use std::sync::ledger::Ledger;

/// The digest of no group.
pub(crate) const NO_GROUP: Digest = Digest([0; 32]);

// The tags that the messages of nodes begin with.
const ONE_GROUP: u8 = 0x10;

const SEVERAL_GROUPS: u8 = 0x11;

/// The number as four bytes, the high one first, without its higher bits.
fn four_bytes(n: usize) -> [u8; 4]
    ensures { result ≡ be32 n }
{
    ((n % 0x1_0000_0000) as u32).to_be_bytes()
}

/// The digest of a group with this key and these codes of rows, in this order. It is one more step.
pub(crate) fn leaf_digest<L: Ledger>(key: &Digest, rows: &[&[u8]], steps: &mut Steps<L>) -> Digest
    ensures digest { result.0 ≡ sha256 (0x10 ∷ (key.now.0 ++ (be32 (length rows.now) ++ joined (map (λ r. r.now) rows.now)))) }
    ensures counted { steps.new ≡ steps.old + 1 }
{
    steps.tick();
    let mut hasher = Sha256::new();
    hasher.update(&[ONE_GROUP]);
    hasher.update(&key.0);
    hasher.update(&four_bytes(rows.len()));
    for row in rows {
        hasher.update(*row);
    }
    Digest(hasher.finalize())
}

/// These codes as slices.
pub fn slices_of(alloc: Global, rows: &[Vec<u8>]) -> Result<Vec<&[u8]>, AllocError>
    ensures { IfOk result (λ v. map (λ s. s.now) v.items ≡ map (λ r. r.items) rows.now) }
{
    let mut slices = Vec::with_capacity(alloc, rows.len())?;
    for row in rows {
        slices.push(row.as_slice())?;
    }
    Ok(slices)
}

/// The digest of several groups, from the digests that the nodes of their half bytes keep. It is one more step.
pub(crate) fn fork_digest<L: Ledger>(children: &[Node], steps: &mut Steps<L>) -> Digest
    ensures digest { result.0 ≡ sha256 (0x11 ∷ joined (map (digest_under children.now) sixteen)) }
    ensures counted { steps.new ≡ steps.old + 1 }
{
    steps.tick();
    let mut hasher = Sha256::new();
    hasher.update(&[SEVERAL_GROUPS]);
    for half in 0..16u8 {
        hasher.update(&under(children, half).0);
    }
    Digest(hasher.finalize())
}

// The digest of the groups of a half byte, as the nodes keep it.
fn under(children: &[Node], half: u8) -> Digest
    ensures { result.0 ≡ digest_under children.now half }
{
    match place_of(children, half) {
        Some(place) => children[place].digest(),
        None => NO_GROUP,
    }
}

/// The half byte of a key at a place, the high one of each byte first.
pub(crate) fn half_at(key: &Digest, place: u32) -> u8
    requires { place < 64 }
    ensures half { result ≡ half_of place key.now.0 }
    ensures small { result < 16 }
{
    let byte = key.0[(place / 2) as usize];
    if place % 2 == 0 { byte / 16 } else { byte % 16 }
}

/// Says that these are 32 bytes.
pub(crate) fn known_length(bytes: &[u8; 32])
    ensures { length bytes.now ≡ 32 }
{
    let _bytes = *bytes;
}
