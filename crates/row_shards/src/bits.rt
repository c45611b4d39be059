//! The bits of shards.
ghost use Rattle.std.specs.Prelude.{◌≡◌, ◌⊎◌, ◌<◌, ℕ, true, eqb, IfOk};
ghost use Rattle.std.specs.Int.{bit_at};
ghost use Rattle.std.specs.List.{list_any};
ghost use Rattle.calculus.specs.Storing.{shard};
ghost use Rattle.shard_counts.specs.Bits.{AreBits};
ghost use Rattle.events.specs.Shards.{stands_in};
ghost use Rattle.row_shards.specs.Counted.{AreCounted};

use rho_term::{Op, TermBind};
use space_row::Row;
use std::alloc::{AllocError, Global};
use term_encoder::shard_of;

/// The bits of the shards that a row stands in. Want of memory is the one error.
pub fn row_bits(alloc: Global, row: &Row) -> Result<u64, AllocError>
    ensures { IfOk result (AreBits (λ k. stands_in k row.now)) }
{
    match row.op() {
        Op::Produce { channel, .. } => Ok(1 << shard_of(alloc, channel)?),
        Op::Consume { binds, .. } => bind_bits(alloc, binds),
    }
}

/// The bits of the shards of a receive that stands in two or more, and no bits for any other row. Want of memory is the one error.
pub fn counted_bits(alloc: Global, row: &Row) -> Result<u64, AllocError>
    ensures { IfOk result (AreCounted row.now) }
{
    match row.op() {
        Op::Produce { .. } => Ok(0),
        Op::Consume { binds, .. } => Ok(two_or_none(bind_bits(alloc, binds)?)),
    }
}

// The bits of the shards of the channels of these binds.
fn bind_bits(alloc: Global, binds: &[TermBind]) -> Result<u64, AllocError>
    ensures { IfOk result (AreBits (λ k. list_any (λ b. eqb k (shard b.channel)) binds.now)) }
{
    let mut bits = 0;
    for bind in binds {
        bits |= 1 << shard_of(alloc, &bind.channel)?;
    }
    Ok(bits)
}

// Whether it is known that one bit alone is set.
fn is_one(bits: u64) -> bool
    ensures { result ≡ true → (j k : ℕ) → j < 64 → k < 64 → bit_at bits j ≡ 1 → bit_at bits k ≡ 1 → j ≡ k }
{
    if bits == 0 {
        return false;
    }
    bits == 1 << bits.trailing_zeros()
}

// These bits, or none where one alone is set.
fn two_or_none(bits: u64) -> u64
    ensures { (result ≡ bits) ⊎ ((result ≡ 0) × ((j k : ℕ) → j < 64 → k < 64 → bit_at bits j ≡ 1 → bit_at bits k ≡ 1 → j ≡ k)) }
{
    if is_one(bits) { 0 } else { bits }
}
