//! Words, numbers and strings of printed text, texts that are being written, and what holds no further term in them.
#![tactic(auto)]

pub mod closed;
pub mod fixed;
mod ground;
pub mod page;
mod parts;
pub mod shapes;
pub mod words;

pub use closed::look_inside;
pub use fixed::{
    arrow, bool_word, op_word, rights_word, send_marks, simple_word, tuple_end, uri_after,
};
pub use page::Page;
pub use shapes::{is_atom, is_bare, is_pattern_atom};
pub use words::{
    number_of, put, put_fresh, put_hex, put_int, put_rest, put_space_since, put_str, put_uri,
    put_variable, separate,
};
