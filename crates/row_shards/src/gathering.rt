//! Rows that are taken out of a shard.
ghost use Rattle.std.specs.Prelude.{◌≡◌, ◌++◌, eqb, filter, IfOk, OnOk};
ghost use Rattle.row_shards.specs.Homes.{home};

use rho_term::Op;
use space_row::Row;
use std::alloc::{AllocError, Global};
use term_encoder::shard_of;

/// The number of the shard of a row's first channel, and 64 where it has none. Want of memory is the one error.
pub fn home_of(alloc: Global, row: &Row) -> Result<u32, AllocError>
    ensures { IfOk result (λ k. k ≡ home row.now) }
{
    match row.op() {
        Op::Produce { channel, .. } => shard_of(alloc, channel),
        Op::Consume { binds, .. } => match binds.first() {
            Some(bind) => shard_of(alloc, &bind.channel),
            None => Ok(64),
        },
    }
}

/// Adds those of a shard's rows whose first channel is in the shard of this number. Want of memory is the one error.
pub fn gather_home(
    alloc: Global,
    rows: &mut Vec<Row>,
    shard: Vec<Row>,
    number: usize,
) -> Result<(), AllocError>
    ensures { OnOk result (rows.new.items ≡ rows.old.items ++ filter (λ r. eqb (home r) number) shard.items) }
{
    for row in shard {
        if home_of(alloc, &row)? as usize == number {
            rows.push(row)?;
        }
    }
    Ok(())
}
