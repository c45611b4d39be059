/// A row that has arrived. `R` is a row, alone or with what else is kept of it.
#[derive(Drop)]
pub struct Seen<R> {
    pub row: R,
    /// The index of the step that offered it; None for a row that stands from the start, and for one that the source
    /// offered.
    pub from: Option<u32>,
    /// How many done steps name it.
    pub done: u32,
}
