// Rows by their ids, and their ids by channel.
ghost use Rattle.std.specs.Prelude.{◌≡◌, ◌<◌, [], ◌∷◌, true, false, eqb, map, None, IfOk, OnErr, OnOk, IsPermutation};
ghost use Rattle.std.specs.BTreeMap.{insert_entry};
ghost use Rattle.std.specs.Cmp.Lexicographic.{slice_cmp};
ghost use Rattle.std.specs.List.Sorted.{IsStrictlySortedBy};
ghost use Rattle.std.specs.Map.{keys_of};
ghost use Rattle.std.specs.Ordering.{nat_cmp};
ghost use Rattle.std.specs.declared.alloc.Global.{Global};
ghost use Rattle.std.specs.declared.vec.Vec.{Vec};
ghost use Rattle.calculus.specs.Form.{term};
ghost use Rattle.calculus.specs.Steps.{is_one_of};
ghost use Rattle.events.specs.Found.{without};
ghost use Rattle.calculus.specs.Storing.{shard};
ghost use Rattle.row_search.specs.Rows.{row_with};
ghost use Rattle.row_table.specs.Shown.{heard_on};
ghost use Rattle.shard_counts.specs.Bits.{AreBitsBeside};
ghost use Rattle.shard_counts.specs.Counts.{added, CountsRiseBy, CountsStay};
ghost use Rattle.shard_counts.specs.Keyed.{count_of};
ghost use Rattle.match_targets.specs.Targets.{Ready};

use crate::groups::{Groups, file_id, ids_of, remove_ids};
use crate::keys::{is_send, row_keys};
use calculus::Digest;
use rho_term::Term;
use row_search::RowsAtHand;
use row_shards::counted_bits;
use shard_counts::{Key, ShardCounts};
use space_row::Row;
use std::alloc::{AllocError, Global};
use std::collections::BTreeMap;
use std::marker::Model;
use term_encoder::encode_term;

/// A row with the keys of its channels, which are their codes, and the bits of the shards that it is counted for under them.
#[derive(Drop)]
pub(crate) struct Filed {
    pub row: Row,
    pub keys: Vec<Key>,
    pub counted: u64,
}

// Rows by their ids.
type Rows = BTreeMap<[u8; 32], Filed>;

/// A table of rows, seen as the list of them, in the order of their ids. No two of its rows have one id.
#[derive(Drop)]
pub struct RowTable {
    rows: Rows,
    sends: Groups,
    receivers: Groups,
    shards: ShardCounts,
}

impl Model for RowTable {
    ghost use Rattle.std.specs.Prelude.{List};
    ghost use Rattle.std.specs.Coded.{coded_list};
    ghost use Rattle.calculus.specs.Rows.{Row as CalculusRow};
    ghost use Rattle.space_row.specs.Values.{row_value_code};

    ghost Value = { List CalculusRow };

    ghost coded = { coded_list row_value_code };

    ghost use Rattle.row_table.specs.Tables.{rows_in, IsTable};

    ghost view = { λ t. rows_in t.rows.entries };

    ghost invariant = { λ t. IsTable t.rows.entries t.sends.entries t.receivers.entries t.shards };
}

// Files a row under an id, and counts its shards. Want of memory is the one error, and all is then as it was.
fn file_row(
    alloc: Global,
    rows: &mut Rows,
    shards: &mut ShardCounts,
    id: [u8; 32],
    filed: Filed,
) -> Result<(), AllocError>
    ensures rows { OnOk result (rows.new.entries ≡ insert_entry (slice_cmp nat_cmp) rows.old.entries id filed) }
    ensures ordered { OnOk result (IsStrictlySortedBy (slice_cmp nat_cmp) (keys_of rows.new.entries)) }
    ensures counted { OnOk result (CountsRiseBy (added filed.keys.items filed.counted) (count_of shards.old) (count_of shards.new)) }
    ensures same { OnErr result (rows.new.entries ≡ rows.old.entries) }
    ensures failed { OnErr result (CountsStay (count_of shards.old) (count_of shards.new)) }
{
    shards.add(alloc, filed.keys.as_slice(), filed.counted)?;
    match rows.insert(id, filed) {
        Ok(_) => Ok(()),
        Err(failed) => {
            let (_, filed) = failed.value;
            shards.remove(filed.keys.as_slice(), filed.counted);
            Err(AllocError)
        }
    }
}

impl RowsAtHand for RowTable {
    ghost rows = { λ t. t };

    fn row(&self, id: &Digest) -> Option<&Row> {
        match self.rows.get(&id.0) {
            Some(filed) => Some(&filed.row),
            None => None,
        }
    }

    fn sends_on(&self, alloc: Global, channel: &Term) -> Result<&[Digest], AllocError> {
        let key = encode_term(alloc, channel)?;
        Ok(ids_of(&self.sends, &key))
    }

    fn receivers_on(&self, alloc: Global, channel: &Term) -> Result<&[Digest], AllocError> {
        let key = encode_term(alloc, channel)?;
        Ok(ids_of(&self.receivers, &key))
    }
}

impl RowTable {
    /// The table of no rows.
    pub fn new(alloc: Global) -> RowTable
        ensures { result ≡ [] }
    {
        RowTable {
            rows: BTreeMap::new(alloc),
            sends: BTreeMap::new(alloc),
            receivers: BTreeMap::new(alloc),
            shards: ShardCounts::new(alloc),
        }
    }

    /// Adds a row where none has its id, and answers whether it did. Want of memory is the one error, and the rows are then as they
    /// were.
    pub fn put(&mut self, alloc: Global, row: Row) -> Result<bool, AllocError>
        ensures there { IfOk result (λ added. added ≡ false → is_one_of row.id (map (λ r. r.id) self.old) ≡ true) }
        ensures same { IfOk result (λ added. added ≡ false → self.new ≡ self.old) }
        ensures added { IfOk result (λ added. added ≡ true → IsPermutation self.new (row ∷ self.old)) }
        ensures others { IfOk result (λ added. added ≡ true → without (row.id ∷ []) self.new ≡ self.old) }
        ensures failed { OnErr result (self.new ≡ self.old) }
    {
        if self.row(&row.id()).is_some() {
            return Ok(false);
        }
        self.add(alloc, row)?;
        Ok(true)
    }

    /// The bits of the shards of all receives with a bind on a channel; nothing is said of the channel's own shard. Want of memory is
    /// the one error.
    pub fn shards_on(&self, alloc: Global, channel: &Term) -> Result<u64, AllocError>
        requires { Ready term channel.now }
        ensures { IfOk result (AreBitsBeside (λ k. eqb k (shard channel.now)) (heard_on self.now channel.now)) }
    {
        let key = encode_term(alloc, channel)?;
        Ok(self.shards.bits_of(&key))
    }

    // Adds a row, whose id none has. Want of memory is the one error, and the rows are then as they were.
    fn add(&mut self, alloc: Global, row: Row) -> Result<(), AllocError>
        requires { row_with row.id self.old ≡ None }
        ensures added { OnOk result (IsPermutation self.new (row ∷ self.old)) }
        ensures others { OnOk result (without (row.id ∷ []) self.new ≡ self.old) }
        ensures failed { OnErr result (self.new ≡ self.old) }
    {
        let id = row.id();
        let keys = row_keys(alloc, &row)?;
        let send = is_send(&row);
        let counted = counted_bits(alloc, &row)?;
        file_id(
            alloc,
            &mut self.sends,
            &mut self.receivers,
            send,
            keys.as_slice(),
            id,
        )?;
        let filed = Filed { row, keys, counted };
        file_row(alloc, &mut self.rows, &mut self.shards, id.0, filed)?;
        Ok(())
    }

    // Takes out the row with this id, where there is one.
    fn take_one(&mut self, id: &Digest)
        ensures { self.new ≡ without (id.now.0 ∷ []) self.old }
    {
        if let Some(filed) = self.rows.remove(&id.0) {
            self.shards.remove(filed.keys.as_slice(), filed.counted);
            if is_send(&filed.row) {
                remove_ids(&mut self.sends, filed.keys.as_slice(), id);
            } else {
                remove_ids(&mut self.receivers, filed.keys.as_slice(), id);
            }
        }
    }

    /// Takes out the rows with these ids. The others stay, in their order. It takes no memory.
    pub fn take_out(&mut self, ids: &[Digest])
        ensures { self.new ≡ without (map (λ d. d.0) ids.now) self.old }
    {
        for id in ids {
            self.take_one(id);
        }
    }

    /// All rows. Want of memory is the one error.
    pub fn into_rows(self, alloc: Global) -> Result<Vec<Row>, AllocError>
        ensures { IfOk result (λ v. v.items ≡ self) }
    {
        let RowTable { rows, .. } = self;
        let mut list = Vec::new(alloc);
        for (_, filed) in rows {
            let Filed { row, .. } = filed;
            list.push(row)?;
        }
        Ok(list)
    }
}
