//! The steps of the parser up to the next process or pattern of a form: what begins, and what is taken of it.
#![tactic(auto)]

mod atom;
mod bind;
mod constituent;
mod keyed;
mod next_mark;
mod operand;
mod part;
mod pattern;
mod plain;
mod send;
pub mod step;

pub use atom::begin_atom;
pub use bind::next_separator;
pub use constituent::{both, bound, cased, first_of, one_more, paired};
pub use keyed::begin_keyed;
pub use next_mark::{arrow_mark, skip, skip_comma, then_mark};
pub use operand::{begin_call, begin_operand};
pub use part::{begin_part, begin_term, leading_form};
pub use pattern::begin_pattern;
pub use plain::{
    close_bundle, close_bundle_pattern, close_same, dropped_quote, member_patterns, members,
    negated,
};
pub use send::{quoted_send, quoted_send_pattern};
