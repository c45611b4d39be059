/// A SHA-256 digest of 32 bytes, as FIPS 180-4 has it. It is the id of a row, a fresh name or a root.
#[derive(Clone, Copy, Debug, PartialEq, Eq, Hash)]
pub struct Digest(pub [u8; 32]);
