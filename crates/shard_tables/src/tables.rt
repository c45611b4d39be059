//! The tables.
ghost use Rattle.std.specs.Prelude.{◌≡◌, ◌≢◌, ◌<◌, ℕ, List, [], length, map, Option, None, Some, IfOk, IfSome, OnOk, OnErr, IsPermutation};
ghost use Rattle.calculus.specs.Rows.{channels};
ghost use Rattle.events.specs.Found.{Among};
ghost use Rattle.found_rows.specs.AtHand.{MeetsAtHand};
ghost use Rattle.events.specs.Allowed.{IdsTell, MeetsNothing, rows_at_hand};
ghost use Rattle.shard_tables.specs.Hands.{AreInHand, AreMade, AreShardsOf, AreShown, GainsRow, IdsDiffer, LosesRows};
ghost use Rattle.calculus.specs.Rows.{Row as Stored};

use calculus::Digest;
use found_rows::Found;
use space_row::Row;
use std::alloc::{AllocError, Global};

/// A store of rows that is cut into 64 shards, numbered from 0, and the shards of it that a worker has in hand.
///
/// Rows are found by their ids, so what is made of a shard is told where no two of its rows have one id.
pub trait ShardTables {
    /// The rows of one shard.
    type Shard: Drop + Send + Sync;
    /// The shards in hand.
    type Held: Drop + Send + Sync;

    // The rows of a shard, in any order.
    ghost rows: { Self.Shard → List Stored };

    // The shard of this number in hand.
    ghost in_hand: { Self.Held → ℕ → Option Self.Shard };

    /// The 64 shards of these rows, in the order of their numbers. Want of memory is the one error.
    fn shards(alloc: Global, stored: Vec<Row>) -> Result<Vec<Self::Shard>, AllocError>
        ensures count { IfOk result (λ v. length v.items ≡ 64) }
        ensures rows { IdsDiffer stored.items → IfOk result (λ v. AreShardsOf rows stored.items v.items) };

    /// No shards in hand, with room for 64. Want of memory is the one error.
    fn hand(alloc: Global) -> Result<Self::Held, AllocError>
        ensures { IfOk result (λ h. (k : ℕ) → in_hand h k ≡ None) };

    /// Puts a shard in hand. None of its number may be there. It takes no memory.
    fn add(held: &mut Self::Held, number: u32, shard: Self::Shard)
        requires low { number < 64 }
        requires absent { in_hand held.old number ≡ None }
        ensures here { in_hand held.new number ≡ Some shard }
        ensures others { (k : ℕ) → k ≢ number → in_hand held.new k ≡ in_hand held.old k };

    /// Takes the shard of this number out of hand, if it is there.
    fn remove(held: &mut Self::Held, number: u32) -> Option<Self::Shard>
        requires low { number < 64 }
        ensures shard { result ≡ in_hand held.old number }
        ensures here { in_hand held.new number ≡ None }
        ensures others { (k : ℕ) → k ≢ number → in_hand held.new k ≡ in_hand held.old k };

    /// The bits of the shards that the rows in hand show for an operation: of its own channels, and of all channels of each receive
    /// in hand that hears it. Want of memory is the one error.
    fn shards_of(alloc: Global, held: &Self::Held, op: &Row) -> Result<u64, AllocError>
        ensures { (all : List Stored) → AreInHand rows (in_hand held.now) all → IfOk result (AreShown all op.now) };

    /// What the operation meets in hand, the built-in receivers among it. Where ids tell the rows in hand, it is None exactly where
    /// the operation meets nothing there. Want of memory is the one error.
    fn first_step(alloc: Global, held: &Self::Held, op: &Row) -> Result<Option<Found>, AllocError>
        ensures found { (all : List Stored) → AreInHand rows (in_hand held.now) all → IfOk result (λ o. IfSome o (MeetsAtHand all op.now)) }
        ensures none { (all : List Stored) → AreInHand rows (in_hand held.now) all → IdsTell (rows_at_hand all op.now) →
            IfOk result (λ o. o ≡ None → MeetsNothing all op.now) };

    /// Takes the rows with these ids out of the shards in hand. It takes no memory.
    fn take_out(held: &mut Self::Held, gone: &[Digest])
        ensures { AreMade rows (LosesRows (map (λ d. d.0) gone.now)) (in_hand held.old) (in_hand held.new) };

    /// Adds the operation to each shard in hand that it stands in. Want of memory is the one error, and all is then as it was.
    fn put(alloc: Global, held: &mut Self::Held, op: &Row) -> Result<(), AllocError>
        ensures put { OnOk result (AreMade rows (GainsRow op.now) (in_hand held.old) (in_hand held.new)) }
        ensures back { OnErr result ((k : ℕ) → in_hand held.new k ≡ in_hand held.old k) };

    /// The rows of the store of these 64 shards, each once. Want of memory is the one error.
    fn rows_of(alloc: Global, shards: Vec<Self::Shard>) -> Result<Vec<Row>, AllocError>
        ensures { (store : List Stored) → IdsDiffer store → length shards.items ≡ 64 →
            AreShardsOf rows store shards.items → ((r : Stored) → Among r store → channels r.part ≢ []) →
            IfOk result (λ v. IsPermutation v.items store) };
}
