//! How bytes are told.
use sha2::{Digest as _, Sha256};
use std::alloc::{AllocError, Global};
use std::str;

/// The most bytes that are shown one by one. Of more the digest is shown.
const FEW: usize = 600;

/// Bytes as hexadecimal digits; where there are many, their number and their digest.
pub fn told_digits(alloc: Global, bytes: &[u8]) -> Result<String, AllocError> {
    if bytes.len() > FEW {
        return told_digest(alloc, bytes);
    }
    hex::encode(alloc, bytes)
}

fn told_digest(alloc: Global, bytes: &[u8]) -> Result<String, AllocError> {
    let mut hasher = Sha256::new();
    hasher.update(bytes);
    let digits = hex::encode(alloc, &hasher.finalize())?;
    format!(in alloc; "{} bytes, {digits}", bytes.len())
}

/// Bytes as a text in quotes; where there are many, their number and their digest.
pub fn told_bytes(alloc: Global, bytes: &[u8]) -> Result<String, AllocError> {
    if bytes.len() > FEW {
        return told_digest(alloc, bytes);
    }
    quoted(alloc, bytes)
}

/// Bytes as a text in quotes.
pub fn quoted(alloc: Global, bytes: &[u8]) -> Result<String, AllocError> {
    let text = text_of(bytes);
    format!(in alloc; "{text:?}")
}

/// The text that bytes are.
pub fn text_of(bytes: &[u8]) -> &str {
    str::from_utf8(bytes).unwrap_or("no UTF-8")
}
