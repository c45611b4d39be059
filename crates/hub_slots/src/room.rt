//! Room for what a hub leaves.
ghost use Rattle.std.specs.Prelude.{◌≡◌, ◌≤◌, [], false, Ok, IfOk, length, vec_capacity};

use crate::order::empty_places;
use std::alloc::{AllocError, Global};

/// Room for what a hub leaves: the lists of its seats, a place for each entry, the entries in their order, the shards and the works.
#[derive(Drop)]
pub struct Room<E, X, W> {
    pub drawn: Vec<Vec<(u64, E)>>,
    pub places: Vec<Option<E>>,
    pub entries: Vec<E>,
    pub shards: Vec<X>,
    pub left: Vec<W>,
}

// What was made, or nothing, and then memory is wanting.
fn kept<T: Drop>(alloc: Global, made: Result<Vec<T>, AllocError>, wanting: &mut bool) -> Vec<T>
    ensures { wanting.new ≡ false → (wanting.old ≡ false) × (made ≡ Ok result) }
{
    match made {
        Ok(things) => things,
        Err(_) => {
            *wanting = true;
            Vec::new(alloc)
        }
    }
}

/// Room for the lists of so many seats, so many entries, all shards and so many works.
pub fn room_for<E: Drop, X: Drop, W: Drop>(
    alloc: Global,
    seats: usize,
    count: usize,
    standing: usize,
) -> Result<Room<E, X, W>, AllocError>
    ensures drawn { IfOk result (λ r. (r.drawn.items ≡ []) × (seats ≤ vec_capacity r.drawn)) }
    ensures order { IfOk result (λ r. (length r.places.items ≡ count) × (r.entries.items ≡ []) × (count ≤ vec_capacity r.entries)) }
    ensures shards { IfOk result (λ r. (r.shards.items ≡ []) × (64 ≤ vec_capacity r.shards)) }
    ensures left { IfOk result (λ r. (r.left.items ≡ []) × (standing ≤ vec_capacity r.left)) }
{
    let mut wanting = false;
    let drawn = kept(alloc, Vec::with_capacity(alloc, seats), &mut wanting);
    let places = kept(alloc, empty_places(alloc, count), &mut wanting);
    let entries = kept(alloc, Vec::with_capacity(alloc, count), &mut wanting);
    let shards = kept(alloc, Vec::with_capacity(alloc, 64), &mut wanting);
    let left = kept(alloc, Vec::with_capacity(alloc, standing), &mut wanting);
    if wanting {
        return Err(AllocError);
    }
    Ok(Room {
        drawn,
        places,
        entries,
        shards,
        left,
    })
}
