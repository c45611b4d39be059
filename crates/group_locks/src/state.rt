//! The state of a seat.
ghost use Rattle.std.specs.Prelude.{◌≡◌, ℕ, ◌+◌, ◌%◌, ◌^◌, ◌<◌, ◌≤◌, ◌++◌, true, false, [], length};
ghost use Rattle.std.specs.Int.{bit_at};
ghost use Rattle.hub_rule.specs.Counts.{count};
ghost use Rattle.hub_rule.specs.Rule.{emptied, below, descends};
ghost use Rattle.hub_rule.specs.Works.{hand};

use hub_rule::{Slot, View};

/// What one seat knows and has drawn. It is no part of `Seat`, whose bound has ghost members: no closure may take a struct that has both
/// such a bound and ghost fields.
#[derive(Drop)]
pub struct SeatState<E, X, W> {
    pub(crate) token: atomic_table::Seat<Slot<X, W>, View<E, X, W>>,
    pub(crate) entries: Vec<(u64, E)>,
    // Its desk, from which it looks for works first.
    pub(crate) desk: u32,
    // How many works it left on desks, less those that it took, modulo 2^64.
    pub(crate) moved: u64,
    // The bits of the shards whose turn it holds.
    pub(crate) turns: u64,
    ghost near: { desk < 32 },
    ghost told: { entries.items ≡ token.me.0.entries },
    ghost out: { token.me.1 ≡ emptied token.me.0.held },
    ghost falls: { (below 64 token.me.0.held ≡ true) × (descends token.me.0.held ≡ true) },
    ghost bits: { (k : ℕ) → k < 64 → bit_at turns k ≡ count k token.me.0.held },
    ghost part: { token.me.0.parts ≡ 32 },
    ghost fresh: { token.me.0.held ≡ [] → token.me.0.since ≡ [] },
    ghost owed: { token.me.0.entries ≡ (token.me.0.tally.settled ++ token.me.0.tally.fresh) ++ token.me.0.tally.due },
    ghost last: { length token.me.0.tally.fresh + length token.me.0.tally.due ≤ 1 },
    ghost calm: { (token.me.0.pile.owes ≡ false) × (token.me.0.pile.desk ≡ []) × (token.me.0.pile.kept ≡ []) },
    ghost even: { token.me.0.pile.counted ≡ length (hand token.me.0.pile) },
    ghost balance: { (moved + token.me.0.pile.fetched) % 2 ^ 64 ≡ token.me.0.pile.left % 2 ^ 64 },
    ghost clear: { token.me.0.tally.leave ≡ true → length token.me.0.tally.fresh ≡ 0 },
}
