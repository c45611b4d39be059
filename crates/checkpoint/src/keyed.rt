// Rows in the order of the keys of their groups.
ghost use Rattle.std.specs.Prelude.{◌≡◌, map, All, IfOk, IsPermutation};
ghost use Rattle.calculus.specs.Rows.{row_code as code_of_row};
ghost use Rattle.checkpoint.specs.Groups.{row_of, AreByKey, IsKeyed};
ghost use Rattle.checkpoint.specs.Marks.{row_mark, seen_mark, AreMarks};

use crate::marks::Mark;
use calculus::Digest;
use space_row::Row;
use std::alloc::{AllocError, Global};

// A row with its code and the key of its group.
#[derive(Drop)]
pub(crate) struct KeyedRow<'a> {
    pub(crate) key: &'a Digest,
    pub(crate) row: &'a Row,
    pub(crate) code: &'a [u8],
}

// These rows, each with its code and the key of its group.
fn keyed_rows<'a>(
    alloc: Global,
    rows: &'a [Row],
    codes: Vec<&'a [u8]>,
    marks: &'a [Mark],
) -> Result<Vec<KeyedRow<'a>>, AllocError>
    requires codes { map (λ c. c.now) codes.items ≡ map code_of_row rows.now }
    requires marks { AreMarks marks.now rows.now }
    ensures rows { IfOk result (λ v. map row_of v.items ≡ rows.now) }
    ensures keyed { IfOk result (λ v. All IsKeyed v.items) }
{
    let mut keyed = Vec::with_capacity(alloc, rows.len())?;
    for place in 0..rows.len() {
        let one = keyed_row(&rows[place], codes[place], &marks[place]);
        keyed.push(one)?;
    }
    Ok(keyed)
}

// This row with its code and the key of its group.
fn keyed_row<'a>(row: &'a Row, code: &'a [u8], mark: &'a Mark) -> KeyedRow<'a>
    requires code { code.now ≡ code_of_row row.now }
    requires mark { seen_mark mark.now ≡ row_mark row.now }
    ensures row { row_of result ≡ row.now }
    ensures keyed { IsKeyed result }
{
    KeyedRow {
        key: &mark.key,
        row,
        code,
    }
}

// These rows, whose codes and marks these are, in the order of the keys of their groups.
pub(crate) fn rows_by_key<'a>(
    alloc: Global,
    rows: &'a [Row],
    codes: Vec<&'a [u8]>,
    marks: &'a [Mark],
) -> Result<Vec<KeyedRow<'a>>, AllocError>
    requires codes { map (λ c. c.now) codes.items ≡ map code_of_row rows.now }
    requires marks { AreMarks marks.now rows.now }
    ensures rows { IfOk result (λ v. IsPermutation rows.now (map row_of v.items)) }
    ensures order { IfOk result (λ v. AreByKey v.items) }
{
    let mut keyed = keyed_rows(alloc, rows, codes, marks)?;
    keyed.sort_by(|a, b| a.key.0.cmp(&b.key.0))?;
    Ok(keyed)
}
