//! What holds between any two steps of a hub, and how it is read whether any work is pending.
#![tactic(auto)]

mod board;
mod moving;
mod pending;
mod rule;
mod scene;
mod slot;
mod terms;
mod view;

pub use crate::board::{
    ASLEEP, BELL, Board, CHARGED, DESK, DESK_TURN, LINE, MARK, PENDING, STOP, TURN, Token, WAITING,
};
pub use crate::moving::move_all;
pub use crate::pending::read_pending;
pub use crate::rule::{
    Cut, Draw, Enter, Fetch, FindCharged, FindPending, FindStop, Give, Halt, Leave, Limiting,
    Merge, Naming, Opened, Pay, Ring, Rule, Take, TakeDesk, Tell,
};
pub use crate::scene::Scene;
pub use crate::slot::Slot;
pub use crate::terms::{StopCause, Terms};
pub use crate::view::{Pile, Tally, View};
