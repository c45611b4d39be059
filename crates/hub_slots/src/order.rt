//! Puts numbered things in their order.
ghost use Rattle.std.specs.Prelude.{◌≡◌, ℕ, ◌+◌, ◌<◌, ◌≤◌, ◌++◌, List, [], None, Some, Option, IsSome, length, map, replicate, IfOk, slice_get, vec_len, vec_capacity};
ghost use Rattle.hub_rule.specs.Counts.{count, placed, all_of, StandIn, EachOnceBelow};

use std::alloc::{AllocError, Global};

/// As many empty places.
pub fn empty_places<T: Drop>(alloc: Global, count: usize) -> Result<Vec<Option<T>>, AllocError>
    ensures { IfOk result (λ v. v.items ≡ replicate count None) }
{
    let mut places = Vec::with_capacity(alloc, count)?;
    for _ in 0..count {
        places.push_reserved(None);
    }
    Ok(places)
}

// Puts each thing at its number.
fn place_all<T: Drop>(mut places: Vec<Option<T>>, things: Vec<(u64, T)>) -> Vec<Option<T>>
    requires { (n : ℕ) → length places.items ≤ n → count n things.items ≡ 0 }
    ensures { result.items ≡ placed places.items things.items }
{
    for (number, thing) in things {
        places[number as usize] = Some(thing);
    }
    places
}

// Puts each thing of these lists at its number. A list is freed once its things are placed.
fn place_lists<T: Drop>(mut places: Vec<Option<T>>, lists: Vec<Vec<(u64, T)>>) -> Vec<Option<T>>
    requires { (n : ℕ) → length places.items ≤ n → count n (all_of (λ l. l.items) lists.items) ≡ 0 }
    ensures { result.items ≡ placed places.items (all_of (λ l. l.items) lists.items) }
{
    for list in lists {
        places = place_all(places, list);
    }
    places
}

fn unwrap_all<T: Drop>(places: Vec<Option<T>>, mut out: Vec<T>) -> Vec<T>
    requires full { (k : ℕ) → k < length places.items → (x : T) × (slice_get places.items k ≡ Some (Some x)) }
    requires room { (out.items ≡ []) × (length places.items ≤ vec_capacity out) }
    ensures { map (λ x. Some x) result.items ≡ places.items }
{
    for place in places {
        let Some(x) = place else { unreachable!() };
        out.push_reserved(x);
    }
    out
}

/// The things in the order of their numbers, each of which stands once.
pub fn in_order<T: Drop>(places: Vec<Option<T>>, lists: Vec<Vec<(u64, T)>>, out: Vec<T>) -> Vec<T>
    requires once { EachOnceBelow (length places.items) (all_of (λ l. l.items) lists.items) }
    requires room { (out.items ≡ []) × (length places.items ≤ vec_capacity out) }
    ensures { (length result.items ≡ length places.items) × StandIn result.items (all_of (λ l. l.items) lists.items) }
{
    unwrap_all(place_lists(places, lists), out)
}
