//! What a seat knows.
use std::collections::LinkedList;

/// What a seat charged, and what it found in the charged word and the stop word. It stands in contracts alone: no value of it is ever made.
pub struct Tally<E> {
    /// The entries, with their numbers, that it charged before it last found the charged word not above the limit.
    pub settled: LinkedList<(u64, E)>,
    /// Those that it charged since.
    pub fresh: LinkedList<(u64, E)>,
    /// Those that it drew and has not charged.
    pub due: LinkedList<(u64, E)>,
    /// It found the charged word not above the limit, and drew nothing since.
    pub leave: bool,
    /// How often it found the charged word not above the limit.
    pub low: u64,
    /// How often it found the charged word above the limit.
    pub over: u64,
    /// How often it found the stop word unset.
    pub unset: u64,
    /// How often it found that the hub stops for want of memory.
    pub no_memory: u64,
    /// How often it found that the hub stops for a fault.
    pub fault: u64,
}

/// What a seat has of the works that are pending. It stands in contracts alone: no value of it is ever made. A work stands with its index,
/// which is its place among all works: first those opened, and then what each entry offered.
pub struct Pile<E, W> {
    /// The works in hand of seats that were joined to it.
    pub kept: LinkedList<(u64, W)>,
    /// The work that it took, until an entry ends it. One at most.
    pub taken: LinkedList<(u64, W)>,
    /// The works that its last entry offered, until it leaves them on its desk.
    pub offered: LinkedList<(u64, W)>,
    /// The entries that it drew since it took the work.
    pub took: LinkedList<E>,
    /// How many of its works the pending word counts.
    pub counted: u64,
    /// It drew an entry, and has not told the pending word yet.
    pub owes: bool,
    /// The desk whose turn it holds, with the works that lay there. One at most.
    pub desk: LinkedList<(u64, LinkedList<(u64, W)>)>,
    /// How often it found that nothing is pending.
    pub empty: u64,
    /// How many works it left on desks.
    pub left: u64,
    /// How many works it took from desks.
    pub fetched: u64,
}

/// What a seat knows. It stands in contracts alone: no value of it is ever made.
pub struct View<E, X, W> {
    /// Its parts of the right to end the hub. A seat has 32.
    pub parts: u64,
    /// The entries that it drew, with their numbers, in the order of its draws.
    pub entries: LinkedList<(u64, E)>,
    /// The shards whose turn it holds, by number, each as it was when the turn was taken. The one taken last stands first.
    pub held: LinkedList<(u64, X)>,
    /// The entries that it drew while it held a shard, since it held none.
    pub since: LinkedList<E>,
    /// What it charged, and what it found.
    pub tally: Tally<E>,
    /// What it has of the works that are pending.
    pub pile: Pile<E, W>,
}
