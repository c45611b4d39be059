//! What is kept of done steps, each at its index.
ghost use Rattle.std.specs.Prelude.{◌≡◌, ◌++◌, ◌∷◌, [], List, None, Some, length, map, replicate, slice_get, IfOk, MatchBool};
ghost use Rattle.calculus.specs.Rows.{Row};
ghost use Rattle.calculus.specs.Tree.{Tree};
ghost use Rattle.hub_scenes.specs.Spaces.{DidStep};
ghost use Rattle.hub_scenes.specs.Entries.{did_by, did_in};
ghost use Rattle.replay_hub.specs.Values.{deed_of, entry_of, line_items};
ghost use Rattle.replay_outcome.specs.Settling.{KeptFrom};

use calculus::FaultKind;
use replay_hub::{Did, Entry, Made};
use std::alloc::{AllocError, Global};

/// What is kept of a done step: what it costs with its body, the fault of its body, and what it prints, None where that is
/// empty.
#[derive(Drop)]
pub struct Came {
    pub price: u64,
    pub fault: Option<FaultKind>,
    pub line: Option<Box<Vec<u8>>>,
}

// Nothing is kept of so many steps.
fn empty_places(alloc: Global, count: u32) -> Result<Vec<Option<Came>>, AllocError>
    ensures { IfOk result (λ v. v.items ≡ replicate count None) }
{
    let mut places = Vec::with_capacity(alloc, count as usize)?;
    for _ in 0..count {
        places.push_reserved(None);
    }
    Ok(places)
}

// Whether there is a place with this index at which nothing is kept.
fn is_free(places: &[Option<Came>], index: usize) -> bool
    ensures { MatchBool result (slice_get places.now index ≡ Some None) (slice_get places.now index ≡ Some None → ⊥) }
{
    match places.get(index) {
        Some(None) => true,
        _ => false,
    }
}

// Keeps a done step at its index, unless one is kept there.
fn place_step<R: Drop, C: Drop>(places: &mut Vec<Option<Came>>, made: Made<R, C>)
    ensures count { length places.new.items ≡ length places.old.items }
    ensures kept { (ds : List DidStep) (d : DidStep) → d.index ≡ made.step → d.price ≡ made.price → d.fault ≡
        made.fault → d.line ≡ line_items made.line → KeptFrom 0 ds places.old.items →
        KeptFrom 0 (ds ++ d ∷ []) places.new.items }
{
    let Made {
        step,
        channel: _,
        made: _,
        gone: _,
        offers: _,
        next: _,
        price,
        fault,
        line,
    } = made;
    let index = step as usize;
    if is_free(places.as_slice(), index) {
        places[index] = Some(Came { price, fault, line });
    }
}

// Keeps the step that an entry does, if it does one.
fn place_entry<R: Drop, C: Drop>(places: &mut Vec<Option<Came>>, entry: Entry<R, C>)
    ensures count { length places.new.items ≡ length places.old.items }
    ensures kept { (row : R → Row) (channel : C → Tree) (ds : List DidStep) → KeptFrom 0 ds places.old.items →
        KeptFrom 0 (ds ++ did_in (deed_of row channel entry.did)) places.new.items }
{
    let Entry { did, shards: _ } = entry;
    match did {
        Did::Done(made) => place_step(places, made),
        _ => {}
    }
}

/// What is kept of the steps that entries do, of a log of so many steps. Want of memory is the one error.
pub(crate) fn place_all<R: Drop, C: Drop>(
    alloc: Global,
    entries: Vec<Entry<R, C>>,
    count: u32,
) -> Result<Vec<Option<Came>>, AllocError>
    ensures count { IfOk result (λ v. length v.items ≡ count) }
    ensures kept { (row : R → Row) (channel : C → Tree) →
        IfOk result (λ v. KeptFrom 0 (did_by (map (entry_of row channel) entries.items)) v.items) }
{
    let mut places = empty_places(alloc, count)?;
    for entry in entries {
        place_entry(&mut places, entry);
    }
    Ok(places)
}
