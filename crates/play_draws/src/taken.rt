//! The operation in hand.
use space_row::Row;

/// An operation that a seat took and has in hand.
#[derive(Drop, Clone, Copy)]
pub struct Taken<'a> {
    pub op: &'a Row,
    /// How many entries the seat had drawn when it took the operation.
    pub from: usize,
    /// How often the step of the last entry on it was made, where nothing left by it.
    pub again: Option<u32>,
}
