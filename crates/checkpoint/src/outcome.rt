use crate::checkpoint::Checkpoint;
use replays::Verdict;

/// What a run came to: how it ended, the rows that it leaves where it is done, what it costs, and what it printed.
#[derive(Drop)]
pub struct Outcome {
    pub verdict: Verdict,
    pub next: Option<Checkpoint>,
    pub cost: u64,
    pub output: Vec<u8>,
}
