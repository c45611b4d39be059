// Lists that take no more memory than what stands in them.
ghost use Rattle.std.specs.Prelude.{◌≡◌, []};

use std::alloc::Global;

/// A list without items, with room for exactly so many. Where memory is wanting it has none yet, and is told so by its
/// first item.
pub fn with_room<T>(alloc: Global, count: usize) -> Vec<T>
    ensures { result.items ≡ [] }
{
    match Vec::with_capacity(alloc, count) {
        Ok(list) => list,
        Err(_) => Vec::new(alloc),
    }
}
