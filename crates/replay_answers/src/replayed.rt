use replays::Verdict;
use space_row::Row;

/// What a replayed run came to.
#[derive(Drop)]
pub struct Replayed {
    pub verdict: Verdict,
    /// What is charged: the limit where the price passed it, and else the price.
    pub cost: u64,
    /// The rows that are left, in no order that is told, where the verdict is Done; else nothing, and the
    /// base stays.
    pub rows: Vec<Row>,
    /// What the built-in receivers printed, where the verdict is Done; else nothing.
    pub output: Vec<u8>,
}
