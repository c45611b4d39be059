// Bits of shards.
ghost use Rattle.std.specs.Prelude.{◌≡◌, ◌<◌, ℕ, true, not, ◌&&◌};
ghost use Rattle.replay_hub.specs.Values.{has_bit};

/// The bit of the shard of this number.
pub(crate) fn bit_of(number: u32) -> u64
    requires { number < 64 }
    ensures { has_bit result number ≡ true }
{
    1 << number
}

/// The bits of the wanted shards that are not among these.
pub(crate) fn missing(wanted: u64, shards: u64) -> u64
    ensures { (k : ℕ) → has_bit result k ≡ has_bit wanted k && not (has_bit shards k) }
{
    wanted & !shards
}
