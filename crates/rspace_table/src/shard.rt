// One shard.
ghost use Rattle.std.specs.Prelude.{◌≡◌, ◌<◌, [], ◌∷◌, true, false, map, IfOk, OnErr, IsPermutation};
ghost use Rattle.calculus.specs.Steps.{is_one_of};
ghost use Rattle.events.specs.Found.{without};
ghost use Rattle.events.specs.Shards.{stands_in};
ghost use Rattle.rspace_table.specs.Hands.{StandIn};

use calculus::Digest;
use row_table::RowTable;
use space_row::Row;
use std::alloc::{AllocError, Global};
use std::marker::Model;

// No shard has this number.
const MIXED: u32 = 64;

/// The rows of one of 64 shards, seen as their list. No two of them have one id.
#[derive(Drop)]
pub struct Shard {
    // The shard that all rows stand in, or `MIXED`.
    number: u32,
    table: RowTable,
}

impl Model for Shard {
    ghost use Rattle.std.specs.Prelude.{◌<◌, List};
    ghost use Rattle.std.specs.Coded.{coded_list};
    ghost use Rattle.calculus.specs.Rows.{Row as StoredRow};
    ghost use Rattle.space_row.specs.Values.{row_value_code};
    ghost use Rattle.rspace_table.specs.Hands.{StandIn};

    ghost Value = { List StoredRow };

    ghost coded = { coded_list row_value_code };

    ghost view = { λ s. s.table };

    ghost invariant = { λ s. s.number < 64 → StandIn s.number s.table };
}

// The number of a shard whose rows stand in the one and that gains a row which stands in the other.
fn common_number(own: u32, other: u32) -> u32
    ensures { result < 64 → (result ≡ own) × (result ≡ other) }
{
    if own == other { own } else { MIXED }
}

impl Shard {
    /// The shard of this number, without rows.
    pub fn new(alloc: Global, number: u32) -> Shard
        ensures { result ≡ [] }
    {
        Shard {
            number,
            table: RowTable::new(alloc),
        }
    }

    /// Its rows, found by their ids and channels.
    pub fn table(&self) -> &RowTable
        ensures { result.now ≡ self.now }
    {
        &self.table
    }

    /// Whether it is known that its rows stand in the shard of this number. It is of the shard that `new` made with it, as long as
    /// `put` names no other.
    pub fn is_at(&self, number: u32) -> bool
        requires { number < 64 }
        ensures { result ≡ true → StandIn number self.now }
    {
        self.number == number
    }

    /// Adds a row that stands in the shard of this number, where none has its id, and answers whether it did. Want of memory is the
    /// one error, and the rows are then as they were.
    pub fn put(&mut self, alloc: Global, row: Row, number: u32) -> Result<bool, AllocError>
        requires { stands_in number row ≡ true }
        ensures there { IfOk result (λ added. added ≡ false → is_one_of row.id (map (λ r. r.id) self.old) ≡ true) }
        ensures same { IfOk result (λ added. added ≡ false → self.new ≡ self.old) }
        ensures added { IfOk result (λ added. added ≡ true → IsPermutation self.new (row ∷ self.old)) }
        ensures others { IfOk result (λ added. added ≡ true → without (row.id ∷ []) self.new ≡ self.old) }
        ensures failed { OnErr result (self.new ≡ self.old) }
    {
        self.number = common_number(self.number, number);
        self.table.put(alloc, row)
    }

    /// Takes out the rows with these ids. It takes no memory.
    pub fn take_out(&mut self, ids: &[Digest])
        ensures { self.new ≡ without (map (λ d. d.0) ids.now) self.old }
    {
        self.table.take_out(ids);
    }

    /// Its rows. Want of memory is the one error.
    pub fn into_rows(self, alloc: Global) -> Result<Vec<Row>, AllocError>
        ensures { IfOk result (λ v. v.items ≡ self) }
    {
        let Shard { table, .. } = self;
        table.into_rows(alloc)
    }
}
