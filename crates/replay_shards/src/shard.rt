// One shard.
ghost use Rattle.std.specs.Prelude.{◌≡◌, ◌<◌, ◌++◌, ◌∷◌, [], filter, map as each, All, IfOk, OnOk};
ghost use Rattle.calculus.specs.Storing.{IsStorable};
ghost use Rattle.rho_term.specs.Rows.{row_of_op};
ghost use Rattle.hub_scenes.specs.Spaces.{bare, seen_in, standing_row};
ghost use Rattle.replay_slots.specs.Hands.{IsOpened};
ghost use Rattle.replay_rows.specs.Rows.{filed_rows, own_built, seen_row};

use replay_rows::bits::is_set;
use replay_rows::kept::Kept;
use replay_rows::rows::Rows;
use replay_rows::sharded::ShardedRow;
use replay_space::Seen;
use rho_term::Op;
use space_row::Row;
use std::alloc::{AllocError, Global};
use std::collections::BTreeMap;
use std::marker::Model;
use system_names::built_ins;

/// One of 64 shards of a replay: the rows that have arrived and stand in it, and the built-in receivers in it.
#[derive(Drop)]
pub struct ReplayShard {
    pub(crate) kept: Kept,
}

impl Model for ReplayShard {
    ghost use Rattle.hub_scenes.specs.Spaces.{Part};
    ghost use Rattle.replay_shards.specs.Values.{part_code};

    ghost Value = { Part };

    ghost coded = { part_code };

    ghost use Rattle.replay_rows.specs.Rows.{part_of, AreFiled};

    ghost view = { λ a. part_of a.kept };

    ghost invariant = { λ a. AreFiled a.kept.rows.entries };
}

// Operations as the rows that they are. Want of memory is the one error.
fn as_rows(alloc: Global, operations: Vec<Op>) -> Result<Vec<ShardedRow>, AllocError>
    requires { All (λ o. IsStorable (row_of_op o)) operations.items }
    ensures { IfOk result (λ v. v.items ≡ each row_of_op operations.items) }
{
    let mut rows = Vec::new(alloc);
    for operation in operations {
        rows.push(ShardedRow::from_row(alloc, Row::from_op(operation))?)?;
    }
    Ok(rows)
}

// Adds a receiver that stands from the start, if it stands in the shard of this number.
fn add_if(
    alloc: Global,
    built: &mut Vec<Seen<ShardedRow>>,
    row: &ShardedRow,
    number: u32,
) -> Result<(), AllocError>
    requires { number < 64 }
    ensures { OnOk result (each seen_row built.new.items ≡ each seen_row built.old.items ++
        filter (seen_in number) (standing_row row.now ∷ [])) }
{
    if !is_set(row.shards(), number) {
        return Ok(());
    }
    let row = row.copy(alloc)?;
    built.push(Seen {
        row,
        from: None,
        done: 0,
    })?;
    Ok(())
}

// The built-in receivers of the shard of this number. Want of memory is the one error.
fn own_receivers(alloc: Global, number: u32) -> Result<Vec<Seen<ShardedRow>>, AllocError>
    requires { number < 64 }
    ensures { IfOk result (λ v. each seen_row v.items ≡ own_built number) }
{
    let rows = as_rows(alloc, built_ins(alloc)?)?;
    let mut built = Vec::new(alloc);
    for row in rows.as_slice() {
        add_if(alloc, &mut built, row, number)?;
    }
    Ok(built)
}

impl ReplayShard {
    /// The shard of this number before any row has arrived. Want of memory is the one error.
    pub fn new(alloc: Global, number: u32) -> Result<ReplayShard, AllocError>
        requires { number < 64 }
        ensures { IfOk result (IsOpened [] number) }
    {
        let built = own_receivers(alloc, number)?;
        let rows = BTreeMap::new(alloc);
        Ok(ReplayShard {
            kept: Kept {
                number,
                rows,
                built,
            },
        })
    }

    /// Its rows. Want of memory is the one error.
    pub fn into_rows(self, alloc: Global) -> Result<Vec<ShardedRow>, AllocError>
        ensures { IfOk result (λ v. v.items ≡ bare self.rows) }
    {
        let kept = self.kept;
        rows_out(alloc, kept.rows)
    }
}

// Adds rows at the end.
fn add_rows(rows: &mut Vec<ShardedRow>, list: Vec<Seen<ShardedRow>>) -> Result<(), AllocError>
    ensures { OnOk result (rows.new.items ≡ rows.old.items ++ bare (each seen_row list.items)) }
{
    for seen in list {
        rows.push(seen.row)?;
    }
    Ok(())
}

// The rows of a map from ids.
fn rows_out(alloc: Global, filed: Rows) -> Result<Vec<ShardedRow>, AllocError>
    ensures { IfOk result (λ v. v.items ≡ bare (filed_rows filed.entries)) }
{
    let mut rows = Vec::new(alloc);
    for (_, list) in filed {
        add_rows(&mut rows, list)?;
    }
    Ok(rows)
}
