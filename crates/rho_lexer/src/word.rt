//! Words, keys and signs.
ghost use Rattle.rho_lexer.specs.Meaning.{IsRead, begins_word};
ghost use Rattle.std.specs.Prelude.{◌≡◌, ◌==◌, ◌<◌, ℕ, IfOk, false, length, slice_index, string_bytes, true};
ghost use Rattle.std.specs.Str.{IsAscii};
ghost use Rattle.tokens.specs.Bytes.{back_quote, is_digit, quote};
ghost use Rattle.tokens.specs.Fronts.{longest_front};
ghost use Rattle.tokens.specs.Reading.{token_step};
ghost use Rattle.tokens.specs.Tables.{is_among, signs};
ghost use Rattle.tokens.specs.Token.{source};

use crate::bytes::{is_key, is_sign, is_word_byte, is_word_start, word_run};
use crate::token::{LexFault, TokenKind};
use std::alloc::{AllocError, Global};
use std::str;

/// ASCII bytes as a text of their own.
fn owned(alloc: Global, ascii: &[u8]) -> Result<String, AllocError>
    requires { IsAscii ascii.now }
    ensures { IfOk result (λ text. string_bytes text ≡ ascii.now) }
{
    match str::from_utf8(ascii) {
        Ok(text) => String::from_str(alloc, text),
        Err(_) => unreachable!(),
    }
}

/// Whether a word begins the text.
pub fn begins_word(text: &[u8]) -> bool
    ensures { result ≡ begins_word text.now }
{
    match text {
        [] => false,
        [b'_', next, ..] => is_word_byte(*next),
        [first, ..] => is_word_start(*first),
    }
}

/// The word or key that a text begins with, and how many bytes it takes.
pub fn word(alloc: Global, text: &[u8]) -> Result<(TokenKind, usize), LexFault>
    requires { begins_word text.now ≡ true }
    ensures { (at : ℕ) → IsRead (token_step source at text.now) result }
{
    let len = word_run(text);
    if len < text.len() && is_key(&text[..len + 1]) {
        let name = owned(alloc, &text[..len + 1])?;
        return Ok((TokenKind::Key(name), len + 1));
    }
    let bytes = &text[..len];
    let name = owned(alloc, bytes)?;
    if is_key(bytes) {
        Ok((TokenKind::Key(name), len))
    } else {
        Ok((TokenKind::Word(name), len))
    }
}

/// The number of bytes of the longest sign.
const LONGEST_SIGN: usize = 3;

/// How many bytes the longest sign takes that the text begins with: 0 where none does.
fn sign_len(text: &[u8]) -> usize
    ensures { result ≡ longest_front (is_among signs) text.now }
{
    let mut len = text.len().min(LONGEST_SIGN);
    while len > 0 && !is_sign(&text[..len]) {
        len -= 1;
    }
    len
}

/// The sign that a text begins with which no other form begins, and how many bytes it takes. The
/// place is for the fault where there is none.
pub fn sign(alloc: Global, text: &[u8], at: usize) -> Result<(TokenKind, usize), LexFault>
    requires some { 0 < length text.now }
    requires digit { is_digit (slice_index text.now 0) ≡ false }
    requires quote { (slice_index text.now 0 == quote) ≡ false }
    requires back_quote { (slice_index text.now 0 == back_quote) ≡ false }
    requires word { begins_word text.now ≡ false }
    ensures { IsRead (token_step source at text.now) result }
{
    let len = sign_len(text);
    if len == 0 {
        return Err(LexFault::BadByte { at });
    }
    let name = owned(alloc, &text[..len])?;
    Ok((TokenKind::Sign(name), len))
}
