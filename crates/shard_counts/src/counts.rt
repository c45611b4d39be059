// 64 counts.
ghost use Rattle.std.specs.Prelude.{◌≡◌, ◌+◌, ◌-◌, ◌<◌, ◌≤◌, ◌^◌, ℕ, true, eqb, not, slice_index, IfOk};
ghost use Rattle.std.specs.Int.{bit_at};
ghost use Rattle.shard_counts.specs.Bits.{AreBits};

use std::alloc::{AllocError, Global};
use std::marker::Model;

/// A count for each of 64 shards, seen as the list of them.
#[derive(Drop)]
pub(crate) struct Counts {
    counts: Vec<u64>,
}

impl Model for Counts {
    ghost use Rattle.std.specs.Prelude.{◌≡◌, ℕ, List, length};
    ghost use Rattle.std.specs.Coded.{coded_list, coded_ℕ};

    ghost Value = { List ℕ };

    ghost coded = { coded_list coded_ℕ };

    ghost view = { λ c. c.counts.items };

    ghost invariant = { λ c. length c.counts.items ≡ 64 };
}

// The bit of this number.
fn bit(bits: u64, number: u32) -> u64
    requires { number < 64 }
    ensures { result ≡ bit_at bits number }
{
    (bits >> number) & 1
}

impl Counts {
    /// 64 times 0. Want of memory is the one error.
    pub(crate) fn new(alloc: Global) -> Result<Counts, AllocError>
        ensures { IfOk result (λ c. (s : ℕ) → slice_index c s ≡ 0) }
    {
        Ok(Counts {
            counts: vec![in alloc; 0u64; 64]?,
        })
    }

    /// Whether one more fits each count.
    pub(crate) fn has_room(&self) -> bool
        ensures { result ≡ true → (s : ℕ) → slice_index self.now s + 1 < 2 ^ 64 }
    {
        for count in &self.counts {
            if *count == u64::MAX {
                return false;
            }
        }
        true
    }

    /// One more of each shard whose bit is set.
    pub(crate) fn add(&mut self, bits: u64)
        requires { (s : ℕ) → slice_index self.old s + 1 < 2 ^ 64 }
        ensures { (s : ℕ) → s < 64 → slice_index self.new s ≡ slice_index self.old s + bit_at bits s }
    {
        for number in 0..64u32 {
            self.counts[number as usize] += bit(bits, number);
        }
    }

    /// One less of each shard whose bit is set.
    pub(crate) fn remove(&mut self, bits: u64)
        ensures { (s : ℕ) → s < 64 → slice_index self.new s ≡ slice_index self.old s - bit_at bits s }
    {
        for number in 0..64u32 {
            let place = number as usize;
            self.counts[place] = self.counts[place].saturating_sub(bit(bits, number));
        }
    }

    /// The bits of the shards whose count is not 0.
    pub(crate) fn bits(&self) -> u64
        ensures { AreBits (λ s. not (eqb (slice_index self.now s) 0)) result }
    {
        let mut bits = 0;
        for number in 0..64u32 {
            if self.counts[number as usize] != 0 {
                bits |= 1 << number;
            }
        }
        bits
    }
}
