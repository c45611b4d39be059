//! Rows and channels, with their shards.
ghost use Rattle.std.specs.Prelude.{◌≡◌, ℕ, IfOk};
ghost use Rattle.calculus.specs.Rows.{channels};
ghost use Rattle.calculus.specs.Storing.{shard};
ghost use Rattle.hub_scenes.specs.Spaces.{IsIn};
ghost use Rattle.replay_rows.specs.Bits.{has_bit};
ghost use Rattle.row_shards.specs.Homes.{home};
ghost use Rattle.events.specs.Shards.{stands_in};

use crate::bits::{first_of, row_shards};
use calculus::Digest;
use rho_term::{Op, Term};
use space_row::Row;
use std::alloc::{AllocError, Global};
use std::marker::Model;
use std::snapshot::Snapshot;

/// A channel, of which the number of its shard is kept. The channel itself is seen by contracts alone.
#[derive(Drop)]
pub struct ShardedChannel {
    number: u32,
    channel: Snapshot<Term>,
}

impl Model for ShardedChannel {
    ghost use Rattle.calculus.specs.Tree.{Tree, tree_code};

    ghost Value = { Tree };

    ghost coded = { tree_code };

    ghost use Rattle.std.specs.Prelude.{◌≡◌};
    ghost use Rattle.calculus.specs.Storing.{shard};

    ghost view = { λ a. a.channel.value };

    ghost invariant = { λ a. a.number ≡ shard a.channel.value };
}

impl ShardedChannel {
    /// The number of its shard.
    pub fn shard(&self) -> u32
        ensures { result ≡ shard self.now }
    {
        self.number
    }
}

/// A row, with the bits of the shards that it stands in and the number of the shard of its first channel.
#[derive(Drop)]
pub struct ShardedRow {
    row: Row,
    shards: u64,
    first: u32,
}

impl Model for ShardedRow {
    ghost use Rattle.calculus.specs.Rows.{Row as CalculusRow};
    ghost use Rattle.space_row.specs.Values.{row_value_code};

    ghost Value = { CalculusRow };

    ghost coded = { row_value_code };

    ghost use Rattle.std.specs.Prelude.{◌≡◌, ℕ};
    ghost use Rattle.events.specs.Shards.{stands_in};
    ghost use Rattle.replay_rows.specs.Bits.{has_bit};
    ghost use Rattle.row_shards.specs.Homes.{home};

    ghost view = { λ a. a.row };

    ghost invariant = { λ a. ((k : ℕ) → has_bit a.shards k ≡ stands_in k a.row) × (a.first ≡ home a.row) };
}

impl ShardedRow {
    /// A row with its shards. Each of its channels is hashed. Want of memory is the one error.
    pub fn from_row(alloc: Global, row: Row) -> Result<ShardedRow, AllocError>
        ensures { IfOk result (λ r. r ≡ row) }
    {
        let shards = row_shards(alloc, &row)?;
        let first = first_of(alloc, &row, shards)?;
        Ok(ShardedRow { row, shards, first })
    }

    /// The row.
    pub fn row(&self) -> &Row
        ensures { result.now ≡ self.now }
    {
        &self.row
    }

    /// The row itself.
    pub fn into_row(self) -> Row
        ensures { result ≡ self }
    {
        self.row
    }

    /// Its id.
    pub fn id(&self) -> Digest
        ensures { result.0 ≡ self.now.id }
    {
        self.row.id()
    }

    /// The bits of the shards that it stands in: those of its channels.
    pub fn shards(&self) -> u64
        ensures { (k : ℕ) → has_bit result k ≡ stands_in k self.now }
    {
        self.shards
    }

    /// The number of the shard of its first channel, and 64 where it has none.
    pub fn first_shard(&self) -> u32
        ensures { result ≡ home self.now }
    {
        self.first
    }

    /// Its first channel, with its shard.
    pub fn first_channel(&self) -> ShardedChannel
        ensures { IsIn result (channels self.now.part) }
    {
        match self.row.op() {
            Op::Produce { channel, .. } => ShardedChannel {
                number: self.first,
                channel: Snapshot::of(channel),
            },
            Op::Consume { binds, .. } => ShardedChannel {
                number: self.first,
                channel: Snapshot::of(&binds[0].channel),
            },
        }
    }

    /// An equal row with its shards. Want of memory is the one error.
    pub fn copy(&self, alloc: Global) -> Result<ShardedRow, AllocError>
        ensures { IfOk result (λ r. r ≡ self.now) }
    {
        Ok(ShardedRow {
            row: self.row.copy(alloc)?,
            shards: self.shards,
            first: self.first,
        })
    }
}

/// Rows with their shards. Want of memory is the one error.
pub fn sharded_rows(alloc: Global, rows: Vec<Row>) -> Result<Vec<ShardedRow>, AllocError>
    ensures { IfOk result (λ v. v.items ≡ rows.items) }
{
    let mut sharded = Vec::new(alloc);
    for row in rows {
        sharded.push(ShardedRow::from_row(alloc, row)?)?;
    }
    Ok(sharded)
}
