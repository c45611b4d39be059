// Bits of shards.
ghost use Rattle.std.specs.Prelude.{◌≡◌, ◌<◌, ℕ, ◌||◌, eqb, map as each, IfOk, IfSome};
ghost use Rattle.std.specs.List.{list_any};
ghost use Rattle.calculus.specs.Storing.{shard};
ghost use Rattle.events.specs.Shards.{stands_in};
ghost use Rattle.row_shards.specs.Homes.{home};
ghost use Rattle.replay_rows.specs.Bits.{has_bit};

use rho_term::{Op, TermBind};
use row_shards::home_of;
use space_row::Row;
use std::alloc::{AllocError, Global};
use term_encoder::shard_of;

/// Whether the bit of a shard is set.
pub fn is_set(shards: u64, number: u32) -> bool
    requires { number < 64 }
    ensures { result ≡ has_bit shards number }
{
    (shards >> number) & 1 == 1
}

// With the bit of this shard.
fn with_bit(shards: u64, number: u32) -> u64
    requires { number < 64 }
    ensures { (k : ℕ) → has_bit result k ≡ has_bit shards k || eqb k number }
{
    shards | (1 << number)
}

// The bits of the shards of the channels of these binds.
fn bind_shards(alloc: Global, binds: &Vec<TermBind>) -> Result<u64, AllocError>
    ensures { IfOk result (λ n. (k : ℕ) → has_bit n k ≡ list_any (eqb k) (each (λ b. shard b.channel) binds.now.items)) }
{
    let mut shards = 0;
    for bind in binds {
        shards = with_bit(shards, shard_of(alloc, &bind.channel)?);
    }
    Ok(shards)
}

/// The bits of the shards that a row stands in: those of its channels. Want of memory is the one error.
pub fn row_shards(alloc: Global, row: &Row) -> Result<u64, AllocError>
    ensures { IfOk result (λ n. (k : ℕ) → has_bit n k ≡ stands_in k row.now) }
{
    match row.op() {
        Op::Produce { channel, .. } => Ok(with_bit(0, shard_of(alloc, channel)?)),
        Op::Consume { binds, .. } => bind_shards(alloc, binds),
    }
}

/// The number of the shard whose bit alone is set; None where none or several are.
pub fn only_shard(shards: u64) -> Option<u32>
    ensures { IfSome result (λ n. (n < 64) × ((k : ℕ) → has_bit shards k ≡ eqb k n)) }
{
    let number = shards.trailing_zeros();
    if number < 64 && shards == 1 << number {
        return Some(number);
    }
    None
}

/// The number of the shard of the first channel of a row that stands in the shards with these bits, and 64 where it has none.
/// Where that is one shard, nothing is hashed. Want of memory is the one error.
pub fn first_of(alloc: Global, row: &Row, shards: u64) -> Result<u32, AllocError>
    requires { (k : ℕ) → has_bit shards k ≡ stands_in k row.now }
    ensures { IfOk result (λ n. n ≡ home row.now) }
{
    match only_shard(shards) {
        Some(number) => Ok(number),
        None => home_of(alloc, row),
    }
}
