// Rows by their ids.
ghost use Rattle.std.specs.Prelude.{◌≡◌, ◌<◌, ◌^◌, ◌-◌, false, [], ◌∷◌, ◌++◌, flat_map, map as each, IfOk, OnOk, IsPermutation, option_map, option_copied};
ghost use Rattle.hub_scenes.specs.Spaces.{SeenRow, IsIn};
ghost use Rattle.replay_rows.specs.Rows.{filed_rows, find_seen, once_more, seen_row, settled, AreFiled};
ghost use Rattle.replay_rows.specs.Filing.{HasRoom};

use crate::sharded::ShardedRow;
use calculus::Digest;
use replay_space::Seen;
use std::alloc::{AllocError, Global};
use std::collections::BTreeMap;

/// Rows by their ids. Rows with one id stand in the order in which they came.
pub type Rows = BTreeMap<[u8; 32], Vec<Seen<ShardedRow>>>;

/// Makes room for one more row with this id. Want of memory is the one error.
pub fn make_room(alloc: Global, rows: &mut Rows, id: &Digest) -> Result<(), AllocError>
    ensures same { filed_rows rows.new.entries ≡ filed_rows rows.old.entries }
    ensures filed { AreFiled rows.old.entries → AreFiled rows.new.entries }
    ensures room { OnOk result (HasRoom id.now.0 rows.new.entries) }
{
    match rows.get_mut(&id.0) {
        Some(list) => list.reserve(1),
        None => {
            let list = Vec::with_capacity(alloc, 1)?;
            rows.insert(id.0, list)?;
            Ok(())
        }
    }
}

/// Puts a row beside the others, where there is room for it.
pub fn put(rows: &mut Rows, seen: Seen<ShardedRow>)
    requires room { HasRoom seen.row.id rows.old.entries }
    ensures rows { IsPermutation (filed_rows rows.old.entries ++ seen_row seen ∷ []) (filed_rows rows.new.entries) }
    ensures filed { AreFiled rows.old.entries → AreFiled rows.new.entries }
{
    if let Some(list) = rows.get_mut(&seen.row.id().0) {
        list.push_reserved(seen);
    }
}

/// The first row with this id, if there is one.
pub fn find<'a>(rows: &'a Rows, id: &Digest) -> Option<&'a Seen<ShardedRow>>
    ensures { AreFiled rows.now.entries → option_map seen_row (option_copied result) ≡ find_seen id.now.0 (filed_rows rows.now.entries) }
{
    let _size = rows.len();
    rows.get(&id.0)?.first()
}

// Counts one more done step at each of these rows.
fn count_all(list: &mut [Seen<ShardedRow>])
    requires { (q : SeenRow) → IsIn q (each seen_row list.old) → q.done < 2 ^ 32 - 1 }
    ensures { each seen_row list.new ≡ each once_more (each seen_row list.old) }
{
    for i in 0..list.len() {
        let seen = &mut list[i];
        seen.done += 1;
    }
}

/// Counts one more done step at each row with this id, or takes these rows out.
pub fn settle(rows: &mut Rows, id: &Digest, leaves: bool)
    requires filed { AreFiled rows.old.entries }
    requires low { leaves ≡ false → (q : SeenRow) → IsIn q (filed_rows rows.old.entries) → id.now.0 ≡ q.row.id → q.done < 2 ^ 32 - 1 }
    ensures rows { filed_rows rows.new.entries ≡ flat_map (settled id.now.0 leaves) (filed_rows rows.old.entries) }
    ensures filed { AreFiled rows.new.entries }
{
    let _size = rows.len();
    if leaves {
        rows.remove(&id.0);
        return;
    }
    if let Some(list) = rows.get_mut(&id.0) {
        count_all(list);
    }
}
