//! Seeds: what the ids and fresh names of a run are made from, each seen as its SHA-256 digest.
#![tactic(auto)]

ghost use Rattle.std.specs.Prelude.{◌≡◌, ◌≤◌, [], ◌∷◌, length, map};
ghost use Rattle.sha2.specs.Hashers.{Holds256};
ghost use Rattle.sha2.specs.Sha256.{sha256};
ghost use Rattle.calculus.specs.Bytes.{be32};
ghost use Rattle.calculus.specs.Seeds.{digest_of, System, Start, Split, Body, Fresh, Comm};

use calculus::Digest;
use sha2::{Digest as _, Sha256};
use std::marker::Model;

/// The root of a state without rows.
pub const EMPTY_ROOT: Digest = Digest([0; 32]);

/// What ids and fresh names are made from: the digest of a tag, which says how the seed is made, and of the digests
/// and numbers that it is made from. Numbers are hashed as four bytes, the high one first.
///
/// A contract sees it as the 32 bytes of its digest.
#[derive(Clone, Copy, Debug, PartialEq, Eq)]
pub struct Seed {
    digest: [u8; 32],
}

impl Model for Seed {
    ghost use Rattle.std.specs.Prelude.{List, ℕ};

    ghost Value = { List ℕ };

    ghost view = { λ s. s.digest };

    ghost inverse = { λ d. record { digest = d } };
}

/// The SHA-256 digest of these bytes, as FIPS 180-4 defines it.
pub fn bytes_digest(bytes: &[u8]) -> Digest
    ensures { result.0 ≡ sha256 bytes.now }
{
    Digest(Sha256::digest(bytes))
}

// The tags that the messages of seeds begin with.
const SYSTEM: u8 = 0x01;

const START: u8 = 0x02;

const SPLIT: u8 = 0x03;

const BODY: u8 = 0x04;

const FRESH: u8 = 0x05;

const COMM: u8 = 0x06;

/// A hasher that holds the tag alone.
fn tagged(tag: u8) -> Sha256
    ensures { Holds256 result (tag ∷ []) }
{
    let mut hasher = Sha256::new();
    hasher.update(&[tag]);
    hasher
}

/// The number as four bytes, the high one first.
fn four_bytes(n: u32) -> [u8; 4]
    ensures { result ≡ be32 n }
{
    n.to_be_bytes()
}

impl Seed {
    /// The seed of the fixed name or built-in receiver number `k`.
    pub fn system(k: u32) -> Seed
        ensures { result ≡ digest_of (System k) }
    {
        let mut hasher = tagged(SYSTEM);
        hasher.update(&four_bytes(k));
        Seed {
            digest: hasher.finalize(),
        }
    }

    /// The seed of a run: from the root of the checkpoint that it starts at, and the digest of its source's bytes.
    pub fn start(root: &Digest, source: &Digest) -> Seed
        ensures { result ≡ digest_of (Start root.now.0 source.now.0) }
    {
        let mut hasher = tagged(START);
        hasher.update(&root.0);
        hasher.update(&source.0);
        Seed {
            digest: hasher.finalize(),
        }
    }

    /// The seed of part number `i`, counted from 0 in ascending order, of a composition that has this seed.
    pub fn split(&self, i: u32) -> Seed
        ensures { result ≡ digest_of (Split self.now i) }
    {
        let mut hasher = tagged(SPLIT);
        hasher.update(&self.digest);
        hasher.update(&four_bytes(i));
        Seed {
            digest: hasher.finalize(),
        }
    }

    /// The seed of the body of a part that has this seed.
    pub fn body(&self) -> Seed
        ensures { result ≡ digest_of (Body self.now) }
    {
        let mut hasher = tagged(BODY);
        hasher.update(&self.digest);
        Seed {
            digest: hasher.finalize(),
        }
    }

    /// The seed of name number `k`, counted from 0, that a `new` with this seed declares. Its digest is the name.
    pub fn fresh(&self, k: u32) -> Seed
        ensures { result ≡ digest_of (Fresh self.now k) }
    {
        let mut hasher = tagged(FRESH);
        hasher.update(&self.digest);
        hasher.update(&four_bytes(k));
        Seed {
            digest: hasher.finalize(),
        }
    }

    /// The seed of the body that a step starts: from the receiver's id, the ids of its data in the order of its
    /// sorted binds, of which there are at most 16, and how often the very same step was made before.
    pub fn comm(cont: &Digest, taken: &[Digest], repeat: u32) -> Seed
        requires { length taken.now ≤ 16 }
        ensures { result ≡ digest_of (Comm cont.now.0 (map (λ id. id.0) taken.now) repeat) }
    {
        let mut hasher = tagged(COMM);
        hasher.update(&cont.0);
        hasher.update(&four_bytes(taken.len() as u32));
        for id in taken {
            hasher.update(&id.0);
        }
        hasher.update(&four_bytes(repeat));
        Seed {
            digest: hasher.finalize(),
        }
    }

    /// The digest that the seed stands for.
    pub fn digest(&self) -> Digest
        ensures { result.0 ≡ self.now }
    {
        Digest(self.digest)
    }
}
