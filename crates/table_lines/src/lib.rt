//! Lines of tables: texts with escapes, their fields, and why a line has no answer; and lines of cases, in which things are compared;
//! and what a program of tables does with them.
#![tactic(auto)]

mod answer;
mod cases;
mod escapes;
mod fault;
mod fields;
mod lines;
mod programs;

pub use answer::Answer;
pub use cases::{Case, put_case, put_cases};
pub use escapes::unescape;
pub use fault::LineFault;
pub use fields::{Fields, digest, first_field, hex_bytes, number, two_sources};
pub use lines::{print_answer, told};
pub use programs::{answer_lines, print_lines};
