//! The words and slots of a hub, and a seat's token to step on them.
use crate::rule::{Opened, Rule};
use crate::scene::Scene;
use crate::slot::Slot;
use crate::view::View;
use atomic_table::Shared;

/// What a seat steps with.
pub type Token<S: Scene> = atomic_table::Seat<
    Slot<S::Shard, S::Work>,
    View<S::Entry, S::Shard, S::Work>,
>;

/// The words and slots, under the rule.
pub type Board<S: Scene> = Shared<
    Slot<S::Shard, S::Work>,
    View<S::Entry, S::Shard, S::Work>,
    Opened<S::Shard, S::Work>,
    Rule<S>,
>;

/// How many words lie on one line of a cache. Words that different seats write lie on lines of their own.
pub const LINE: usize = 8;

/// The word of the turn of the first shard.
pub const TURN: usize = 8;

/// The charged word.
pub const CHARGED: usize = 1;

/// The stop word.
pub const STOP: usize = 2;

/// The pending word.
pub const PENDING: usize = 520;

/// The bell.
pub const BELL: usize = 784;

/// How many seats sleep until the bell rings, or are about to.
pub const WAITING: usize = 792;

/// How many seats sleep for a turn, or are about to.
pub const ASLEEP: usize = 793;

/// The first slot of a desk.
pub const DESK: usize = 64;

/// The word of the turn of the first desk.
pub const DESK_TURN: usize = 528;

/// The first word of those that mark desks: 1 where nothing lay on the desk when its turn was last given back.
pub const MARK: usize = 529;
