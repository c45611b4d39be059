// Rows that are put into shards.
ghost use Rattle.std.specs.Prelude.{◌≡◌, ◌<◌, ℕ, [], get_or, length, map, All, IfOk, OnOk, IsPermutation};
ghost use Rattle.calculus.specs.Storing.{IsStorable};
ghost use Rattle.rho_term.specs.Rows.{row_of_op};
ghost use Rattle.shard_tables.specs.Hands.{AreShardsOf, GainsRow, IdsDiffer};
ghost use Rattle.rspace_table.specs.Hands.{AreBuiltIns, AreEmpty};

use crate::places::gain;
use crate::shard::Shard;
use rho_term::Op;
use row_shards::row_bits;
use row_table::RowTable;
use space_row::Row;
use std::alloc::{AllocError, Global};
use system_names::built_ins;

// The table of the rows that operations are. Want of memory is the one error.
fn table_of(alloc: Global, operations: Vec<Op>) -> Result<RowTable, AllocError>
    requires { All (λ o. IsStorable (row_of_op o)) operations.items }
    ensures { IdsDiffer (map row_of_op operations.items) → IfOk result (IsPermutation (map row_of_op operations.items)) }
{
    let mut table = RowTable::new(alloc);
    for operation in operations {
        table.put(alloc, Row::from_op(operation))?;
    }
    Ok(table)
}

/// The table of the built-in receivers. Want of memory is the one error.
pub(crate) fn built_in_table(alloc: Global) -> Result<RowTable, AllocError>
    ensures { IfOk result AreBuiltIns }
{
    table_of(alloc, built_ins(alloc)?)
}

// 64 shards without rows, in the order of their numbers. Want of memory is the one error.
fn empty_shards(alloc: Global) -> Result<Vec<Shard>, AllocError>
    ensures count { IfOk result (λ v. length v.items ≡ 64) }
    ensures empty { IfOk result (λ v. AreEmpty v.items) }
{
    let mut shards = Vec::new(alloc);
    for number in 0..64u32 {
        shards.push(Shard::new(alloc, number))?;
    }
    Ok(shards)
}

// Adds a row to each shard that it stands in. Want of memory is the one error.
fn spread(alloc: Global, shards: &mut Vec<Shard>, row: &Row) -> Result<(), AllocError>
    requires { length shards.old.items ≡ 64 }
    ensures count { length shards.new.items ≡ 64 }
    ensures made { OnOk result ((k : ℕ) → k < 64 → GainsRow row.now k (get_or shards.old.items k []) (get_or shards.new.items k [])) }
{
    let bits = row_bits(alloc, row)?;
    for number in 0..64u32 {
        gain(alloc, &mut shards[number as usize], row, bits, number)?;
    }
    Ok(())
}

/// The 64 shards of these rows, in the order of their numbers. Want of memory is the one error.
pub(crate) fn shards_of_rows(alloc: Global, rows: Vec<Row>) -> Result<Vec<Shard>, AllocError>
    ensures count { IfOk result (λ v. length v.items ≡ 64) }
    ensures rows { IdsDiffer rows.items → IfOk result (λ v. AreShardsOf (λ rows. rows) rows.items v.items) }
{
    let mut shards = empty_shards(alloc)?;
    for row in rows {
        spread(alloc, &mut shards, &row)?;
    }
    Ok(shards)
}
