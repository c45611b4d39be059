// The shards of a space as tables of workers.
ghost use Rattle.std.specs.Prelude.{◌≡◌, ◌≢◌, List, [], length, IfOk, IsPermutation};
ghost use Rattle.calculus.specs.Rows.{channels, Row as Stored};
ghost use Rattle.events.specs.Found.{Among};
ghost use Rattle.shard_tables.specs.Hands.{AreShardsOf, IdsDiffer};

use crate::gathering::gather;
use crate::held::Held;
use crate::shard::Shard;
use crate::spreading::shards_of_rows;
use calculus::Digest;
use found_rows::Found;
use shard_tables::ShardTables;
use space_row::Row;
use std::alloc::{AllocError, Global};

/// Tables whose shards keep their rows by id and by channel.
#[derive(Drop)]
pub struct SpaceTables;

impl ShardTables for SpaceTables {
    type Shard = Shard;

    type Held = Held;

    ghost use Rattle.rspace_table.specs.Hands.{shard_at};

    ghost rows = { λ rows. rows };

    ghost in_hand = { shard_at };

    fn shards(alloc: Global, stored: Vec<Row>) -> Result<Vec<Shard>, AllocError> {
        shards_of_rows(alloc, stored)
    }

    fn hand(alloc: Global) -> Result<Held, AllocError> {
        Held::new(alloc)
    }

    fn add(held: &mut Held, number: u32, shard: Shard) {
        held.add(number, shard);
    }

    fn remove(held: &mut Held, number: u32) -> Option<Shard> {
        held.remove(number)
    }

    fn shards_of(alloc: Global, held: &Held, op: &Row) -> Result<u64, AllocError> {
        held.shards_of(alloc, op)
    }

    fn first_step(alloc: Global, held: &Held, op: &Row) -> Result<Option<Found>, AllocError> {
        held.first_step(alloc, op)
    }

    fn take_out(held: &mut Held, gone: &[Digest]) {
        held.take_out(gone);
    }

    fn put(alloc: Global, held: &mut Held, op: &Row) -> Result<(), AllocError> {
        held.put(alloc, op)
    }

    fn rows_of(alloc: Global, shards: Vec<Shard>) -> Result<Vec<Row>, AllocError>
        ensures { (store : List Stored) → IdsDiffer store → length shards.items ≡ 64 →
            AreShardsOf (λ rows. rows) store shards.items → ((r : Stored) → Among r store → channels r.part ≢ []) →
            IfOk result (λ v. IsPermutation v.items store) }
    {
        gather(alloc, shards)
    }
}
