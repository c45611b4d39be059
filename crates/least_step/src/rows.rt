// Rows in the order of their ids.
ghost use Rattle.std.specs.Prelude.{◌≡◌, ◌++◌, ◌∷◌, [], true, map, IfOk, OnOk, IsPermutation};
ghost use Rattle.calculus.specs.Rows.{stdout, stdout_ack};
ghost use Rattle.calculus.specs.Steps.{differ};
ghost use Rattle.least_step.specs.Orders.{ids_of, referred, AreAscending};

use space_row::Row;
use std::alloc::{AllocError, Global};
use system_names::built_ins;

/// The built-in receivers as rows. Want of memory is the one error.
pub fn built_in_rows(alloc: Global) -> Result<Vec<Row>, AllocError>
    ensures { IfOk result (λ v. v.items ≡ stdout ∷ stdout_ack ∷ []) }
{
    let mut ops = built_ins(alloc)?;
    let first = ops.remove(0);
    let second = ops.remove(0);
    let mut rows = Vec::new(alloc);
    rows.push(Row::from_op(first))?;
    rows.push(Row::from_op(second))?;
    Ok(rows)
}

// Adds references to rows.
fn refer<'a>(all: &mut Vec<&'a Row>, rows: &'a [Row]) -> Result<(), AllocError>
    ensures { OnOk result (map referred all.new.items ≡ map referred all.old.items ++ rows.now) }
{
    for row in rows {
        all.push(row)?;
    }
    Ok(())
}

// These rows and those in the order of their ids. Want of memory is the one error.
pub(crate) fn by_id<'a>(
    alloc: Global,
    rows: &'a [Row],
    others: &'a [Row],
) -> Result<Vec<&'a Row>, AllocError>
    ensures all { IfOk result (λ v. IsPermutation (rows.now ++ others.now) (map referred v.items)) }
    ensures ascending { differ (ids_of (rows.now ++ others.now)) ≡ true → IfOk result (λ v. AreAscending (map referred v.items)) }
{
    let mut all = Vec::new(alloc);
    refer(&mut all, rows)?;
    refer(&mut all, others)?;
    all.sort_by(|a, b| a.id().0.cmp(&b.id().0))?;
    Ok(all)
}
