//! A store of 64 shards.
ghost use Rattle.std.specs.Prelude.{◌<◌};

use rspace_table::{Held, Shard, SpaceTables};
use shard_tables::ShardTables;
use space_row::Row;
use std::alloc::{AllocError, Global};
use std::mem;

/// Shards, of which some are in hand and the others at their places, by their numbers.
#[derive(Drop)]
pub struct Store {
    pub held: Held,
    places: Vec<Option<Shard>>,
}

impl Store {
    pub fn new(alloc: Global) -> Result<Store, AllocError> {
        let places = places(alloc, SpaceTables::shards(alloc, Vec::new(alloc))?)?;
        Ok(Store {
            held: SpaceTables::hand(alloc)?,
            places,
        })
    }

    /// Takes the shards of an operation's channels in hand, and then those that the rows there show, and no others.
    pub fn show(&mut self, alloc: Global, op: &Row) -> Result<(), AllocError> {
        self.hold(0);
        let own = SpaceTables::shards_of(alloc, &self.held, op)?;
        self.hold(own);
        let shown = SpaceTables::shards_of(alloc, &self.held, op)?;
        self.hold(own | shown);
        Ok(())
    }

    /// Takes its rows out.
    pub fn take_rows(&mut self, alloc: Global) -> Result<Vec<Row>, AllocError> {
        self.hold(0);
        let places = mem::replace(&mut self.places, Vec::new(alloc));
        SpaceTables::rows_of(alloc, present(alloc, places)?)
    }

    // Has the shards of these bits in hand, and the others at their places.
    fn hold(&mut self, bits: u64) {
        for number in 0..64u32 {
            self.hold_one(number, (bits >> number) & 1 == 1);
        }
    }

    // Has the shard of this number in hand, or at its place.
    fn hold_one(&mut self, number: u32, in_hand: bool)
        requires { number < 64 }
    {
        let Some(place) = self.places.get_mut(number as usize) else {
            return;
        };
        if place.is_some() == in_hand {
            exchange(place, &mut self.held, number);
        }
    }
}

// What is at a place and what is in hand of this number change sides.
fn exchange(place: &mut Option<Shard>, held: &mut Held, number: u32)
    requires { number < 64 }
{
    let shard = mem::replace(place, SpaceTables::remove(held, number));
    if let Some(shard) = shard {
        SpaceTables::add(held, number, shard);
    }
}

// A place for each value, in which it is.
fn places<T: Drop>(alloc: Global, values: Vec<T>) -> Result<Vec<Option<T>>, AllocError> {
    let mut places = Vec::new(alloc);
    for value in values {
        places.push(Some(value))?;
    }
    Ok(places)
}

// What is at places.
fn present<T: Drop>(alloc: Global, places: Vec<Option<T>>) -> Result<Vec<T>, AllocError> {
    let mut values = Vec::new(alloc);
    for place in places {
        if let Some(value) = place {
            values.push(value)?;
        }
    }
    Ok(values)
}
