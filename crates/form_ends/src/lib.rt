//! The ends of forms: what is made of the last constituent that was read, what stands between two, and lists and
//! chains of constituents up to the first fault.
#![tactic(auto)]

pub mod chain_steps;
pub mod form_begin;
mod form_end;
mod group;
pub mod joint;
mod list_steps;
mod next_marks;
mod plain;
mod row;

pub use chain_steps::{Chain, begin_right, called, join, next_call, next_joint, operated};
pub use form_begin::{FormStep, begin_form};
pub use form_end::{
    close_receive, closed_form, contract_head, contract_with_body, if_with_else, if_without_else,
    new_with_body, quoted_name, quoted_pattern, unary_with_operand,
};
pub use group::{close, tuple, tuple_pattern};
pub use joint::Joint;
pub use list_steps::{
    close_left, close_map, close_pairs, close_sequence, composed, composed_pattern, first_pair,
    skip_after, skip_comma_after, then_one_more,
};
pub use next_marks::{skip_separator_after, then_marks};
pub use plain::{plain_pattern, plain_process};
pub use row::{sent, sent_pattern};
