// Ids in a list, each found by itself.
ghost use Rattle.std.specs.Prelude.{◌≡◌, ◌≢◌, ◌++◌, ◌∷◌, ℕ, List, [], true, length, IfSome, OnErr, OnOk};
ghost use Rattle.std.specs.BTreeMap.{IsUnchanged};
ghost use Rattle.calculus.specs.Steps.{is_one_of};
ghost use Rattle.row_table.specs.Ids.{bytes_of, StandsAt, TellsAll, TellsOthers};

use calculus::Digest;
use std::alloc::{AllocError, Global};
use std::collections::BTreeMap;
use std::marker::Model;

// How many ids at the front of a list are looked through. Those behind them are filed.
const FEW: usize = 16;

// The places of ids.
type Places = BTreeMap<[u8; 32], usize>;

/// Ids, seen as the list of them: a new one comes last, and the last one takes the place of one that goes.
///
/// They are found without hashes, since whoever forges a state may choose ids that collide: the first 16 are
/// looked through, and those behind them have their places in an ordered map.
#[derive(Drop)]
pub(crate) struct Ids {
    list: Vec<Digest>,
    places: Places,
}

impl Model for Ids {
    ghost use Rattle.std.specs.Prelude.{ℕ, List};
    ghost use Rattle.std.specs.Coded.{coded_list, coded_ℕ};

    ghost Value = { List (List ℕ) };

    ghost coded = { coded_list (coded_list coded_ℕ) };

    ghost use Rattle.row_table.specs.Ids.{bytes_of, TellsAll};

    ghost view = { λ s. bytes_of s.list.items };

    ghost invariant = { λ s. TellsAll s.places (bytes_of s.list.items) };
}

// The place of an id among the first of these.
fn place_among_first(ids: &[Digest], id: &Digest) -> Option<usize>
    ensures { IfSome result (λ i. StandsAt (bytes_of ids.now) i id.now.0) }
{
    for place in 0..ids.len().min(FEW) {
        if ids[place] == *id {
            return Some(place);
        }
    }
    None
}

// Files the place of an id that comes last, where that is not among the first. Want of memory is the one error.
fn file_place(places: &mut Places, id: [u8; 32], place: usize) -> Result<(), AllocError>
    ensures put { (xs : List (List ℕ)) → TellsAll places.old xs → place ≡ length xs → OnOk result (TellsAll places.new (xs ++ id ∷ [])) }
    ensures failed { OnErr result (IsUnchanged places.old places.new) }
{
    if place < FEW {
        return Ok(());
    }
    places.insert(id, place)?;
    Ok(())
}

// Files a place of an id that has one, or takes it out where it is among the first.
fn note_place(places: &mut Places, id: &[u8; 32], place: usize)
    ensures { TellsOthers places.old places.new id.now place }
{
    if place < FEW {
        places.remove(id);
    } else if let Some(noted) = places.get_mut(id) {
        *noted = place;
    }
}

impl Ids {
    /// No ids. It takes no memory.
    pub(crate) fn new(alloc: Global) -> Ids
        ensures { result ≡ [] }
    {
        Ids {
            list: Vec::new(alloc),
            places: BTreeMap::new(alloc),
        }
    }

    /// The ids in a slice.
    pub(crate) fn as_slice(&self) -> &[Digest]
        ensures { bytes_of result.now ≡ self.now }
    {
        self.list.as_slice()
    }

    /// Whether there is none.
    pub(crate) fn is_empty(&self) -> bool
        ensures { result ≡ true → self.now ≡ [] }
    {
        self.list.is_empty()
    }

    // Where an id stands.
    fn place(&self, id: &Digest) -> Option<usize>
        ensures { IfSome result (λ i. StandsAt self.now i id.now.0) }
    {
        match place_among_first(self.list.as_slice(), id) {
            Some(place) => Some(place),
            None => self.places.get(&id.0).copied(),
        }
    }

    /// Adds an id where it is not among them. Want of memory is the one error.
    pub(crate) fn insert(&mut self, id: Digest) -> Result<(), AllocError>
        ensures there { OnOk result (is_one_of id.0 self.new ≡ true) }
        ensures kept { (x : List ℕ) → is_one_of x self.old ≡ true → is_one_of x self.new ≡ true }
    {
        if self.place(&id).is_some() {
            return Ok(());
        }
        self.list.reserve(1)?;
        file_place(&mut self.places, id.0, self.list.len())?;
        self.list.push_reserved(id);
        Ok(())
    }

    /// Takes an id out where it is among them. It takes no memory.
    pub(crate) fn remove(&mut self, id: &Digest)
        ensures { (x : List ℕ) → x ≢ id.now.0 → is_one_of x self.old ≡ true → is_one_of x self.new ≡ true }
    {
        let Some(place) = self.place(id) else {
            return;
        };
        self.places.remove(&id.0);
        self.list.swap_remove(place);
        if place < self.list.len() {
            let moved = self.list[place];
            note_place(&mut self.places, &moved.0, place);
        }
    }
}
