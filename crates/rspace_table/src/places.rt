// Shards that change, at their places.
ghost use Rattle.std.specs.Prelude.{◌≡◌, ◌≢◌, ◌≤◌, ◌<◌, [], ◌∷◌, ℕ, true, false, cond, eqb, get_or, length, map, None, IfOk, OnErr, OnOk, option_map};
ghost use Rattle.std.specs.Int.{bit_at};
ghost use Rattle.events.specs.Found.{without};
ghost use Rattle.events.specs.Shards.{stands_in};
ghost use Rattle.shard_tables.specs.Hands.{GainsRow};
ghost use Rattle.shard_counts.specs.Bits.{AreBits};
ghost use Rattle.rspace_table.specs.Hands.{GainsAt};

use crate::shard::Shard;
use calculus::Digest;
use space_row::Row;
use std::alloc::{AllocError, Global};

// Whether the bit of this number is set.
fn has_bit(bits: u64, number: u32) -> bool
    requires { number < 64 }
    ensures { result ≡ eqb (bit_at bits number) 1 }
{
    (bits >> number) & 1 == 1
}

/// Adds an operation to the shard of this number, where it stands in it and none of its rows has the operation's id, and answers
/// whether it did. Want of memory is the one error, and the shard is then as it was.
pub(crate) fn gain(
    alloc: Global,
    shard: &mut Shard,
    op: &Row,
    bits: u64,
    number: u32,
) -> Result<bool, AllocError>
    requires low { number < 64 }
    requires bits { AreBits (λ k. stands_in k op.now) bits }
    ensures made { OnOk result (GainsRow op.now number shard.old shard.new) }
    ensures same { IfOk result (λ added. added ≡ false → shard.new ≡ shard.old) }
    ensures others { IfOk result (λ added. added ≡ true → without (op.now.id ∷ []) shard.new ≡ shard.old) }
    ensures failed { OnErr result (shard.new ≡ shard.old) }
{
    if has_bit(bits, number) {
        let row = op.copy(alloc)?;
        shard.put(alloc, row, number)
    } else {
        Ok(false)
    }
}

// The same of a shard that may be there.
fn gain_at(
    alloc: Global,
    shard: &mut Option<Shard>,
    op: &Row,
    bits: u64,
    number: u32,
) -> Result<bool, AllocError>
    requires low { number < 64 }
    requires bits { AreBits (λ k. stands_in k op.now) bits }
    ensures made { OnOk result (GainsAt op.now number shard.old shard.new) }
    ensures same { IfOk result (λ added. added ≡ false → shard.new ≡ shard.old) }
    ensures others { IfOk result (λ added. added ≡ true → option_map (without (op.now.id ∷ [])) shard.new ≡ shard.old) }
    ensures failed { OnErr result (shard.new ≡ shard.old) }
{
    match shard {
        Some(shard) => gain(alloc, shard, op, bits, number),
        None => Ok(false),
    }
}

// Takes the rows with these ids out of a shard, if it is there.
fn lose_at(shard: &mut Option<Shard>, gone: &[Digest])
    ensures { shard.new ≡ option_map (without (map (λ d. d.0) gone.now)) shard.old }
{
    if let Some(shard) = shard {
        shard.take_out(gone);
    }
}

/// Takes the rows with these ids out of all shards that are there.
pub(crate) fn lose_all(shards: &mut Vec<Option<Shard>>, gone: &[Digest])
    ensures length { length shards.new.items ≡ length shards.old.items }
    ensures lost { (k : ℕ) → get_or shards.new.items k None ≡
        option_map (without (map (λ d. d.0) gone.now)) (get_or shards.old.items k None) }
{
    for k in 0..shards.len() {
        lose_at(&mut shards[k], gone);
    }
}

// Takes an operation out of the shard at this place again, if it was added.
fn take_back(shards: &mut Vec<Option<Shard>>, place: usize, added: bool, op: &Row)
    requires { place < length shards.old.items }
    ensures length { length shards.new.items ≡ length shards.old.items }
    ensures here { get_or shards.new.items place None ≡ cond added
        (option_map (without (op.now.id ∷ [])) (get_or shards.old.items place None))
        (get_or shards.old.items place None) }
    ensures others { (k : ℕ) → k ≢ place → get_or shards.new.items k None ≡ get_or shards.old.items k None }
{
    if added {
        lose_at(&mut shards[place], &[op.id()]);
    }
}

/// Adds an operation to each shard from this number on that is there and that it stands in. Want of memory is the one error, and all
/// is then as it was.
pub(crate) fn put_from(
    alloc: Global,
    shards: &mut Vec<Option<Shard>>,
    op: &Row,
    bits: u64,
    number: u32,
) -> Result<(), AllocError>
    requires length { length shards.old.items ≡ 64 }
    requires low { number ≤ 64 }
    requires bits { AreBits (λ k. stands_in k op.now) bits }
    ensures length { length shards.new.items ≡ 64 }
    ensures made { OnOk result ((k : ℕ) → number ≤ k → GainsAt op.now k (get_or shards.old.items k None) (get_or shards.new.items k None)) }
    ensures before { (k : ℕ) → k < number → get_or shards.new.items k None ≡ get_or shards.old.items k None }
    ensures back { OnErr result ((k : ℕ) → get_or shards.new.items k None ≡ get_or shards.old.items k None) }
{
    if number == 64 {
        return Ok(());
    }
    let place = number as usize;
    let added = gain_at(alloc, &mut shards[place], op, bits, number)?;
    match put_from(alloc, shards, op, bits, number + 1) {
        Ok(()) => Ok(()),
        Err(error) => {
            take_back(shards, place, added, op);
            Err(error)
        }
    }
}
