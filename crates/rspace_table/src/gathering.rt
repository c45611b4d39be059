// Rows that are taken out of shards.
ghost use Rattle.std.specs.Prelude.{◌≡◌, IfOk};
ghost use Rattle.row_shards.specs.Homes.{gathered};

use crate::shard::Shard;
use row_shards::gather_home;
use space_row::Row;
use std::alloc::{AllocError, Global};

/// The rows of shards in the order of their numbers, each taken out of the shard of its first channel alone. Want of memory is the one
/// error.
pub(crate) fn gather(alloc: Global, shards: Vec<Shard>) -> Result<Vec<Row>, AllocError>
    ensures { IfOk result (λ v. v.items ≡ gathered 0 shards.items) }
{
    let mut rows = Vec::new(alloc);
    let mut number = 0;
    for shard in shards {
        gather_home(alloc, &mut rows, shard.into_rows(alloc)?, number)?;
        number += 1;
    }
    Ok(rows)
}
