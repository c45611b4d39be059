//! Counts by key.
ghost use Rattle.std.specs.Prelude.{◌≡◌, ◌-◌, ◌<◌, ℕ, true, false, eqb, not, IfOk, OnErr, OnOk};
ghost use Rattle.std.specs.declared.alloc.Global.{Global};
ghost use Rattle.std.specs.declared.vec.Vec.{Vec};
ghost use Rattle.shard_counts.specs.Bits.{AreBits};
ghost use Rattle.shard_counts.specs.Counts.{count, adds, added, CountsRiseBy, CountsFallBy, CountsStay};
ghost use Rattle.shard_counts.specs.Keyed.{count_of};

use crate::counts::Counts;
use std::alloc::{AllocError, Global};
use std::collections::BTreeMap;

/// What counts are found by.
pub type Key = Vec<u8>;

// The counts of each key under which something is counted.
type Entries = BTreeMap<Key, Counts>;

/// How many are counted for each of 64 shards, by key.
#[derive(Drop)]
pub struct ShardCounts {
    entries: Entries,
}

// Counts these shards under a key that has counts, and answers whether it has. Want of memory is the one error, and all is then as it
// was.
fn add_there(entries: &mut Entries, key: &Key, bits: u64) -> Result<bool, AllocError>
    ensures there { IfOk result (λ there. there ≡ true → CountsRiseBy (adds key.now.items bits)
        (count entries.old.entries) (count entries.new.entries)) }
    ensures none { IfOk result (λ there. there ≡ false → (entries.new.entries ≡ entries.old.entries) ×
        ((s : ℕ) → count entries.old.entries key.now.items s ≡ 0)) }
    ensures failed { OnErr result (CountsStay (count entries.old.entries) (count entries.new.entries)) }
{
    match entries.get_mut(key) {
        Some(counts) => {
            if !counts.has_room() {
                return Err(AllocError);
            }
            counts.add(bits);
            Ok(true)
        }
        None => Ok(false),
    }
}

// Counts these shards under a key that has no counts. Want of memory is the one error, and all is then as it was.
fn add_new(alloc: Global, entries: &mut Entries, key: Key, bits: u64) -> Result<(), AllocError>
    requires { (s : ℕ) → count entries.old.entries key.items s ≡ 0 }
    ensures counted { OnOk result (CountsRiseBy (adds key.items bits) (count entries.old.entries) (count entries.new.entries)) }
    ensures failed { OnErr result ((k : Vec ℕ Global) (s : ℕ) → count entries.new.entries k.items s ≡ count entries.old.entries k.items s) }
{
    let mut counts = Counts::new(alloc)?;
    counts.add(bits);
    entries.insert(key, counts)?;
    Ok(())
}

// Counts these shards under a key. Want of memory is the one error, and all is then as it was.
fn add_one(alloc: Global, entries: &mut Entries, key: &Key, bits: u64) -> Result<(), AllocError>
    ensures counted { OnOk result (CountsRiseBy (adds key.now.items bits) (count entries.old.entries) (count entries.new.entries)) }
    ensures failed { OnErr result (CountsStay (count entries.old.entries) (count entries.new.entries)) }
{
    if add_there(entries, key, bits)? {
        return Ok(());
    }
    add_new(alloc, entries, key.as_slice().to_vec(alloc)?, bits)
}

// Takes back these shards under a key, and answers whether none is left there.
fn drop_there(entries: &mut Entries, key: &Key, bits: u64) -> bool
    ensures taken { CountsFallBy (adds key.now.items bits) (count entries.old.entries) (count entries.new.entries) }
    ensures none { result ≡ true → (s : ℕ) → s < 64 → count entries.new.entries key.now.items s ≡ 0 }
{
    match entries.get_mut(key) {
        Some(counts) => {
            counts.remove(bits);
            counts.bits() == 0
        }
        None => false,
    }
}

// Takes back these shards under a key, and the key where none is left.
fn remove_one(entries: &mut Entries, key: &Key, bits: u64)
    ensures { CountsFallBy (adds key.now.items bits) (count entries.old.entries) (count entries.new.entries) }
{
    if drop_there(entries, key, bits) {
        entries.remove(key);
    }
}

impl ShardCounts {
    /// Nothing is counted.
    pub fn new(alloc: Global) -> ShardCounts
        ensures { (k : Vec ℕ Global) (s : ℕ) → count_of result k.items s ≡ 0 }
    {
        ShardCounts {
            entries: BTreeMap::new(alloc),
        }
    }

    /// Counts the shards of these bits under each of these keys. Want of memory is the one error, and all is then as it was.
    pub fn add(&mut self, alloc: Global, keys: &[Key], bits: u64) -> Result<(), AllocError>
        ensures counted { OnOk result (CountsRiseBy (added keys.now bits) (count_of self.old) (count_of self.new)) }
        ensures failed { OnErr result (CountsStay (count_of self.old) (count_of self.new)) }
    {
        if bits == 0 {
            return Ok(());
        }
        for i in 0..keys.len() {
            let done = add_one(alloc, &mut self.entries, &keys[i], bits);
            if done.is_err() {
                self.remove(&keys[..i], bits);
                return Err(AllocError);
            }
        }
        Ok(())
    }

    /// Takes back what was counted of the shards of these bits under each of these keys. It takes no memory.
    pub fn remove(&mut self, keys: &[Key], bits: u64)
        ensures { CountsFallBy (added keys.now bits) (count_of self.old) (count_of self.new) }
    {
        if bits == 0 {
            return;
        }
        for key in keys {
            remove_one(&mut self.entries, key, bits);
        }
    }

    /// The bits of the shards of which one is counted under this key.
    pub fn bits_of(&self, key: &Key) -> u64
        ensures { AreBits (λ s. not (eqb (count_of self.now key.now.items s) 0)) result }
    {
        match self.entries.get(key) {
            Some(counts) => counts.bits(),
            None => 0,
        }
    }
}
