// What is counted of a form, and how it comes from what was counted of its constituents.

ghost use Rattle.std.specs.Prelude.{◌≡◌, ◌+◌, max};
ghost use Rattle.rho_term.specs.Sizes.{in_u64};
ghost use Rattle.rho_term.specs.Measured.{IsLeaf, IsJoin, IsOne, IsTwo, IsTuple};

use crate::faults::tuple_faults;

/// A height, whether there are faults (1, and else 0), and the length of a code, each up to the greatest number of its type.
#[derive(Clone, Copy)]
pub(crate) struct Measures {
    pub(crate) height: u32,
    pub(crate) faults: u32,
    pub(crate) length: u64,
}

/// The measures of a form without constituents, of this many bytes.
pub(crate) fn leaf(length: u64) -> Measures
    ensures { IsLeaf length result }
{
    Measures {
        height: 0,
        faults: 0,
        length,
    }
}

/// The measures of what stands in two places.
pub(crate) fn join(a: Measures, b: Measures) -> Measures
    ensures { IsJoin a b result }
{
    Measures {
        height: greater(a.height, b.height),
        faults: greater(a.faults, b.faults),
        length: plus(a.length, b.length),
    }
}

/// The measures of a form with so many bytes before its one constituent, or before the row of its constituents.
pub(crate) fn one(length: u64, inner: Measures) -> Measures
    ensures { IsOne length inner result }
{
    Measures {
        height: inner.height.saturating_add(1),
        faults: inner.faults,
        length: plus(length, inner.length),
    }
}

/// The measures of a form with so many bytes before its two constituents.
pub(crate) fn two(length: u64, a: Measures, b: Measures) -> Measures
    ensures { IsTwo length a b result }
{
    Measures {
        height: greater(a.height, b.height).saturating_add(1),
        faults: greater(a.faults, b.faults),
        length: plus(length, plus(a.length, b.length)),
    }
}

/// The measures of a tuple of this many members, which stand in this row. One at least is wanted.
pub(crate) fn tuple(members: usize, row: Measures) -> Measures
    ensures { IsTuple members row result }
{
    Measures {
        height: row.height.saturating_add(1),
        faults: greater(row.faults, tuple_faults(members)),
        length: plus(1, row.length),
    }
}

/// The greater of two numbers.
pub(crate) fn greater(a: u32, b: u32) -> u32
    ensures { result ≡ max a b }
{
    a.max(b)
}

/// The sum, as far as a u64 goes.
pub(crate) fn plus(a: u64, b: u64) -> u64
    ensures { result ≡ in_u64 (a + b) }
{
    a.saturating_add(b)
}
