// The places at which shards in hand may lie.
ghost use Rattle.std.specs.Prelude.{◌≡◌, ◌≢◌, ◌≤◌, ◌<◌, ℕ, None, slice_index_or, is_none};

use crate::slots::Slot;

/// The least places that hold these and one more.
pub fn widened(low: usize, high: usize, number: usize) -> (usize, usize)
    requires { number < 64 }
    ensures { (k : ℕ) → (result.0 ≤ k → k < result.1 → ⊥) → (k ≢ number) × (low ≤ k → k < high → ⊥) }
{
    if low >= high {
        return (number, number + 1);
    }
    (low.min(number), high.max(number + 1))
}

// Whether no shard lies at this place.
fn is_free(slots: &[Slot], place: usize) -> bool
    ensures { result ≡ is_none (slice_index_or slots.now place None) }
{
    match slots.get(place) {
        Some(Some(_)) => false,
        _ => true,
    }
}

/// The first of these places at which a shard lies, or the end of them.
pub fn first_from(slots: &[Slot], low: usize, high: usize) -> usize
    ensures { (k : ℕ) → low ≤ k → k < result → k < high → slice_index_or slots.now k None ≡ None }
{
    for place in low..high {
        if !is_free(slots, place) {
            return place;
        }
    }
    high
}
