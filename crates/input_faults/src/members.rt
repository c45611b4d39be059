// How many members set and map patterns have.

ghost use Rattle.std.specs.Prelude.{leb};
ghost use Rattle.scope.specs.Rules.{pattern_wide, where_so};
ghost use Rattle.input_faults.specs.Walks.{Judges};

use crate::fault::ScopeFault;

/// Whether a set or map pattern may have so many members.
pub fn members_fit(count: usize) -> Result<(), ScopeFault>
    ensures { Judges result (where_so (leb 9 count) pattern_wide) }
{
    if count >= 9 {
        return Err(ScopeFault::PatternWide);
    }
    Ok(())
}
