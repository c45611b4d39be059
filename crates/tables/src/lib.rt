//! Answers about sources, their terms, values, matches and codes. A line is a kind and its fields.
#![tactic(auto)]

mod codes;
mod matches;
mod offers;
mod texts;
mod values;

pub use texts::answer;
