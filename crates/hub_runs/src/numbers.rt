//! The scene of numbers.
ghost use Rattle.std.specs.Prelude.{◌≡◌, ◌≢◌, ℕ, ◌<◌, None, Some, slice_index_or};
ghost use Rattle.hub_runs.specs.Numbers.{numbers, lawful};

use group_locks::Scene;

/// The scene of 64 numbers. A work w adds 1 to the number of its remainder by 64, and offers w - 64 where it is at least 64.
pub struct Numbers;

impl Drop for Numbers {
    fn drop(self) {
        let Numbers = self;
    }
}

/// The numbers in hand of a seat.
#[derive(Drop)]
pub struct Hand {
    pub rows: [Option<u64>; 64],
}

impl Hand {
    /// No number in hand.
    pub fn empty() -> Hand
        ensures { (k : ℕ) → slice_index_or result.rows k None ≡ None }
    {
        Hand { rows: [None; 64] }
    }

    /// Puts a number in hand, in place of the one that was there.
    pub fn put(&mut self, number: u32, x: u64)
        requires { number < 64 }
        ensures here { slice_index_or self.new.rows number None ≡ Some x }
        ensures others { (k : ℕ) → k ≢ number → slice_index_or self.new.rows k None ≡ slice_index_or self.old.rows k None }
    {
        self.rows[number as usize] = Some(x);
    }

    /// The number in hand, if it is there.
    pub fn get(&self, number: u32) -> Option<u64>
        requires { number < 64 }
        ensures { result ≡ slice_index_or self.now.rows number None }
    {
        self.rows[number as usize]
    }
}

impl Scene for Numbers {
    type Entry = u64;

    type Work = u64;

    type Shard = u64;

    type Held = Hand;

    ghost Store = { ℕ → ℕ };

    ghost meaning = { numbers };

    ghost in_hand = { λ held k. slice_index_or held.rows k None };

    fn add(&self, held: &mut Hand, number: u32, shard: u64) {
        held.put(number, shard);
    }

    fn remove(&self, held: &mut Hand, number: u32) -> Option<u64> {
        held.rows[number as usize].take()
    }

    fn touches(&self, entry: &u64) -> u64 {
        1 << (*entry % 64)
    }

    ghost lawful = { lawful };
}
