// The rows of a base.
ghost use Rattle.std.specs.Prelude.{All};
ghost use Rattle.calculus.specs.Storing.{IsStorable};

use space_row::Row;

/// That rows may be stored is known of their type.
pub(crate) fn rows_may_be_stored(rows: &[Row])
    ensures { All IsStorable rows.now }
{
    for row in rows {
        let _operation = row.op();
    }
}
