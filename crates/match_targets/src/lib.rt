//! The targets of a match: what is left of them, what a remainder binds, which of their parts or members repeat, and what
//! is congruent to them.
#![tactic(auto)]

mod compare;
mod found;
mod left;
mod remainders;
mod repeats;

pub use compare::{is_of_kind, same_closed, same_ground};
pub use found::{found_if, found_one, joined};
pub use left::{left_term, same_left};
pub use remainders::{rest_items, rest_members, rest_pairs};
pub use repeats::{repeats_member, repeats_pair, repeats_part};
