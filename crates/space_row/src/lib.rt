//! Rows of a state: operations that may be stored, with their codes, the keys of their groups and the
//! processes that they are.
//!
//! A `Row` is seen as the row of the calculus that it stands for. That the row may be stored is true of
//! every `Row`, so no call asks for it, and what is said of stored rows is known of each. Rows may cross threads.
#![tactic(auto)]

mod copies;
pub mod encoding;
pub mod row;
pub mod threads;

pub use encoding::{row_code, row_key, row_term};
pub use row::Row;
pub use threads::row_crosses;
