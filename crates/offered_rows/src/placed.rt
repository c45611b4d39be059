// Binds in the order of the codes of their channels, beside the places of their variables.
ghost use Rattle.std.specs.Prelude.{◌≡◌, ◌+◌, ◌<◌, ◌≤◌, ◌^◌, ℕ, map, IfOk};
ghost use Rattle.calculus.specs.Unfolding.{from_on, all_places, placed_from, sorted_binds};
ghost use Rattle.rho_term.specs.Parts.{bind_tree};
ghost use Rattle.code_order.specs.Made.{beside};
ghost use Rattle.offered_rows.specs.Binds.{keyed_of, placed_of, with_channel_code};

use code_order::in_order;
use rho_term::TermBind;
use std::alloc::{AllocError, Global};
use term_bounds::bind_bound;
use term_encoder::encode_term;

/// A bind and the places of its variables among all that the binds of its receive bind.
#[derive(Drop)]
pub(crate) struct PlacedBind {
    pub bind: TermBind,
    pub places: Vec<u32>,
}

/// Binds, and the places of all their variables in turn.
#[derive(Drop)]
pub(crate) struct Binds {
    pub binds: Vec<TermBind>,
    pub places: Vec<u32>,
}

/// These binds in the order of the codes of their channels. Those of equal codes keep their order. Want of
/// memory is the one error; it comes for 2^32 variables and more, too.
pub(crate) fn sorted(alloc: Global, binds: Vec<TermBind>) -> Result<Binds, AllocError>
    ensures binds { IfOk result (λ b. map bind_tree b.binds.items ≡ map (λ p. p.0) (sorted_binds (map bind_tree binds.items))) }
    ensures places { IfOk result (λ b. b.places.items ≡ all_places (sorted_binds (map bind_tree binds.items))) }
{
    let keyed = placed_binds(alloc, binds)?;
    let placed = in_order(alloc, keyed)?;
    apart(alloc, placed)
}

// The binds beside their places, after the codes of their channels.
fn placed_binds(
    alloc: Global,
    binds: Vec<TermBind>,
) -> Result<Vec<(Vec<u8>, PlacedBind)>, AllocError>
    ensures { IfOk result (λ v. map keyed_of v.items ≡ map with_channel_code (placed_from 0 (map bind_tree binds.items))) }
{
    let mut first: u64 = 0;
    let mut keyed = Vec::new(alloc);
    for bind in binds {
        let end = first.saturating_add(bind_bound(&bind));
        let places = places_between(alloc, first, end)?;
        let code = encode_term(alloc, &bind.channel)?;
        keyed.push((code, PlacedBind { bind, places }))?;
        first = end;
    }
    Ok(keyed)
}

// The places from the first one up to the end.
fn places_between(alloc: Global, first: u64, end: u64) -> Result<Vec<u32>, AllocError>
    requires { first ≤ end }
    ensures fits { IfOk result (λ _. end < 2 ^ 32) }
    ensures places { (n : ℕ) → end ≡ first + n → IfOk result (λ v. v.items ≡ from_on first n) }
{
    if end > u64::from(u32::MAX) {
        return Err(AllocError);
    }
    let mut places = Vec::new(alloc);
    for place in first..end {
        places.push(place as u32)?;
    }
    Ok(places)
}

// The binds, and their places in turn.
fn apart(alloc: Global, placed: Vec<PlacedBind>) -> Result<Binds, AllocError>
    ensures binds { IfOk result (λ b. map bind_tree b.binds.items ≡ map (λ p. p.0) (map placed_of placed.items)) }
    ensures places { IfOk result (λ b. b.places.items ≡ all_places (map placed_of placed.items)) }
{
    let mut binds = Vec::new(alloc);
    let mut places = Vec::new(alloc);
    for one in placed {
        places.extend_from_slice(one.places.as_slice())?;
        binds.push(one.bind)?;
    }
    Ok(Binds { binds, places })
}
