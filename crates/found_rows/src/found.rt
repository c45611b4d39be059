//! Rows that meet.
use calculus::Digest;
use rho_term::Term;

/// Rows that meet: the ids of the receiver and of the sends in the order of its binds, what these bind,
/// the receiver's body, the ids of the rows that leave, and whether none leaves, so that the same rows
/// may meet again.
#[derive(Drop)]
pub struct Found {
    pub cont: Digest,
    pub taken: Vec<Digest>,
    pub bound: Vec<Term>,
    pub body: Term,
    pub gone: Vec<Digest>,
    pub lasting: bool,
}
