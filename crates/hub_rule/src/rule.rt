//! The rule of a hub, and the steps that keep it.
ghost use Rattle.std.specs.Prelude.{ℕ, Option, None};
ghost use Rattle.hub_rule.specs.Rule.{HubRule, newcomer, Took, Gave, Drew, Told, ReadPending, TookDesk, Fetched, LeftOn, Rang, Paid, ReadCharged, ReadStop, Stopped, cut_left, cut_right, joined, spent, Entered};

use crate::scene::Scene;
use crate::slot::Slot;
use crate::terms::Terms;
use crate::view::View;
use atomic_table::{Join, Play, Split, TableRule};
use std::marker::{Brand, PhantomData};
use std::snapshot::Snapshot;

/// With what a hub opened. The shards and the works are seen by contracts alone.
#[derive(Drop)]
pub struct Opened<X, W> {
    pub shards: Snapshot<Vec<X>>,
    pub works: Snapshot<Vec<W>>,
    pub terms: Terms,
}

/// What holds between any two steps of a hub over this scene.
pub struct Rule<S> {
    scene: PhantomData<S>,
}

impl<S: Scene> TableRule<
    Slot<S::Shard, S::Work>,
    View<S::Entry, S::Shard, S::Work>,
    Opened<S::Shard, S::Work>,
> for Rule<S> {
    ghost holds = { λ key. HubRule S.meaning (key.shards.value.items, key.works.value.items) key.terms };

    ghost first = { λ key. newcomer key.terms.seats };
}

/// A try at a turn.
pub struct Take;

impl<E, X, W> Play<Slot<X, W>, View<E, X, W>> for Take {
    ghost then = { Took };
}

/// A turn is given back.
pub struct Give;

impl<E, X, W> Play<Slot<X, W>, View<E, X, W>> for Give {
    ghost then = { Gave };
}

/// Which entry a draw draws. A step is told numbers alone, so the proof of the call picks the entry.
pub trait Naming<E> {
    ghost entry: { Option E };
}

impl<E> Naming<E> for Brand {
    ghost entry = { None };
}

/// An entry is drawn.
pub struct Draw<S, J> {
    name: PhantomData<(S, J)>,
}

impl<S: Scene, J: Naming<S::Entry>> Play<Slot<S::Shard, S::Work>, View<S::Entry, S::Shard, S::Work>>
    for Draw<S, J> {
    ghost then = { Drew S.meaning J.entry };
}

/// The pending word is told what the last entry offered and ended.
pub struct Tell;

impl<E, X, W> Play<Slot<X, W>, View<E, X, W>> for Tell {
    ghost then = { Told };
}

/// The pending word is read.
pub struct FindPending;

impl<E, X, W> Play<Slot<X, W>, View<E, X, W>> for FindPending {
    ghost then = { ReadPending };
}

/// A try at the turn of a desk.
pub struct TakeDesk;

impl<E, X, W> Play<Slot<X, W>, View<E, X, W>> for TakeDesk {
    ghost then = { TookDesk };
}

/// The turn of a desk is given back by a seat that took works there.
pub struct Fetch;

impl<E, X, W> Play<Slot<X, W>, View<E, X, W>> for Fetch {
    ghost then = { Fetched };
}

/// The turn of a desk is given back by a seat that left works there.
pub struct Leave;

impl<E, X, W> Play<Slot<X, W>, View<E, X, W>> for Leave {
    ghost then = { LeftOn };
}

/// The bell is rung.
pub struct Ring;

impl<E, X, W> Play<Slot<X, W>, View<E, X, W>> for Ring {
    ghost then = { Rang };
}

/// What is due is charged.
pub struct Pay;

impl<E, X, W> Play<Slot<X, W>, View<E, X, W>> for Pay {
    ghost then = { Paid };
}

/// The limit of what is charged, which the proof of a call names.
pub trait Limiting {
    ghost limit: { ℕ };
}

impl Limiting for Brand {
    ghost limit = { 0 };
}

/// The charged word is read.
pub struct FindCharged<J> {
    name: PhantomData<J>,
}

impl<E, X, W, J: Limiting> Play<Slot<X, W>, View<E, X, W>> for FindCharged<J> {
    ghost then = { ReadCharged J.limit };
}

/// The stop word is read.
pub struct FindStop;

impl<E, X, W> Play<Slot<X, W>, View<E, X, W>> for FindStop {
    ghost then = { ReadStop };
}

/// The stop word is set, if it was not.
pub struct Halt;

impl<E, X, W> Play<Slot<X, W>, View<E, X, W>> for Halt {
    ghost then = { Stopped };
}

/// A seat is cut off.
pub struct Cut;

impl<E, X, W> Split<View<E, X, W>> for Cut {
    ghost left = { cut_left };

    ghost right = { λ _. cut_right };
}

/// Two seats are made one.
pub struct Merge;

impl<E, X, W> Join<View<E, X, W>> for Merge {
    ghost both = { joined };

    ghost spent = { spent };
}

/// A seat comes that has nothing.
pub struct Enter;

impl<E, X, W> Play<Slot<X, W>, View<E, X, W>> for Enter {
    ghost then = { Entered };
}
