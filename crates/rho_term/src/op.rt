use crate::term::{Term, TermBind};
use calculus::{Digest, Kind};

/// What a process offers to the tuple space: a send with its data, or a receive with its body.
///
/// The id is a digest that no other offer of a run has.
#[derive(Drop)]
pub enum Op {
    Produce {
        id: Digest,
        channel: Term,
        args: Vec<Term>,
        persistent: bool,
    },
    Consume {
        id: Digest,
        kind: Kind,
        binds: Vec<TermBind>,
        body: Term,
    },
}
