//! What is played.
use calculus::Digest;
use rho_term::Term;

/// What is played, as contracts name it: the root of a state, a process, and the digest of its source.
#[derive(Drop)]
pub(crate) struct Asked<'a> {
    pub(crate) root: &'a Digest,
    pub(crate) term: &'a Term,
    pub(crate) source: &'a Digest,
}
