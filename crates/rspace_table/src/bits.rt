// The bits of shards that receives show.
ghost use Rattle.std.specs.Prelude.{eqb, IfOk};
ghost use Rattle.std.specs.List.{list_any};
ghost use Rattle.calculus.specs.Storing.{shard};
ghost use Rattle.row_search.specs.Choices.{AllBindsReady};
ghost use Rattle.row_table.specs.Shown.{heard_on};
ghost use Rattle.shard_counts.specs.Bits.{AreBitsBeside};
ghost use Rattle.events.specs.Shards.{stands_in};
ghost use Rattle.rspace_table.specs.Shown.{shown_by};

use rho_term::{Op, TermBind};
use row_table::RowTable;
use space_row::Row;
use std::alloc::{AllocError, Global};

// The bits of the shards of all receives in a table with a bind on the channel of one of these binds; nothing is said of the shards of
// these channels.
fn shown_on_any(alloc: Global, table: &RowTable, binds: &[TermBind]) -> Result<u64, AllocError>
    requires { AllBindsReady binds.now }
    ensures { IfOk result (AreBitsBeside (λ k. list_any (λ b. eqb k (shard b.channel)) binds.now)
        (λ k. list_any (λ b. heard_on table.now b.channel k) binds.now)) }
{
    let mut bits = 0;
    for bind in binds {
        bits |= table.shards_on(alloc, &bind.channel)?;
    }
    Ok(bits)
}

/// The bits of the shards of the receives in a table that hear an operation; nothing is said of the operation's own shards. Want of
/// memory is the one error.
pub(crate) fn shown_bits(alloc: Global, table: &RowTable, op: &Row) -> Result<u64, AllocError>
    ensures { IfOk result (AreBitsBeside (λ k. stands_in k op.now) (shown_by table.now op.now)) }
{
    match op.op() {
        Op::Produce { channel, .. } => table.shards_on(alloc, channel),
        Op::Consume { binds, .. } => shown_on_any(alloc, table, binds),
    }
}
