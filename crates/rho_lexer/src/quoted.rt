//! Strings and Uris.
ghost use Rattle.rho_lexer.specs.Meaning.{IsIllFormed, IsRead, IsRefusal, is_inside, is_plain};
ghost use Rattle.std.specs.List.{prefix_len};
ghost use Rattle.std.specs.Prelude.{◌≡◌, ◌+◌, ◌-◌, ◌<◌, ◌≤◌, ◌^◌, ◌∷◌, ℕ, IfErr, IfOk, MatchResult, None, Some, length, slice_index, true};
ghost use Rattle.std.specs.Str.{IsUtf8};
ghost use Rattle.tokens.specs.Bytes.{back_quote, quote};
ghost use Rattle.tokens.specs.Quoted.{after_backslash, begins_character, escaped};
ghost use Rattle.tokens.specs.Reading.{token_step};
ghost use Rattle.tokens.specs.Token.{source};

use crate::token::{LexFault, TokenKind};
use rho_lanes::{ByteClass, class_run};
use std::alloc::Global;
use std::str;

/// Whether the byte stands for itself in a string.
fn is_plain(byte: u8) -> bool
    ensures { result ≡ is_plain byte }
{
    byte != b'"' && byte != b'\\'
}

/// How many bytes from a plain one on are plain too: all up to the first beyond ASCII, or it alone.
fn plain_piece(bytes: &[u8], from: usize) -> usize
    requires inside { from < length bytes.now }
    requires plain { is_plain (slice_index bytes.now from) ≡ true }
    ensures some { 0 < result }
    ensures within { from + result ≤ length bytes.now }
    ensures each { (k : ℕ) → from ≤ k → k < from + result
        → is_plain (slice_index bytes.now k) ≡ true }
{
    if bytes[from].is_ascii() {
        class_run(bytes, from, ByteClass::Plain)
    } else {
        1
    }
}

/// How many bytes at the front stand for themselves in a string.
fn plain_run(bytes: &[u8]) -> usize
    ensures value { result ≡ prefix_len is_plain bytes.now }
    ensures within { result ≤ length bytes.now }
{
    let mut len = 0;
    while len < bytes.len() && is_plain(bytes[len]) {
        len += plain_piece(bytes, len);
    }
    len
}

/// How many bytes at the front come before a back quote.
fn inside_run(bytes: &[u8]) -> usize
    ensures value { result ≡ prefix_len is_inside bytes.now }
    ensures within { result ≤ length bytes.now }
{
    for (i, byte) in bytes.iter().enumerate() {
        if *byte == b'`' {
            return i;
        }
    }
    bytes.len()
}

/// The bytes from this place on as text, or `BadByte` where they stop being UTF-8.
fn text_of(bytes: &[u8], at: usize) -> Result<&str, LexFault>
    requires { at + length bytes.now < 2 ^ 64 }
    ensures ok { IfOk result (λ text. (text.now ≡ bytes.now) × IsUtf8 bytes.now) }
    ensures err { IfErr result (λ fault. IsIllFormed bytes.now at fault) }
{
    match str::from_utf8(bytes) {
        Ok(text) => Ok(text),
        Err(error) => Err(LexFault::BadByte {
            at: at + error.valid_up_to(),
        }),
    }
}

/// Whether a character in UTF-8 begins the bytes.
fn begins_character(bytes: &[u8]) -> bool
    ensures { result ≡ begins_character bytes.now }
{
    match str::from_utf8(bytes) {
        Ok(text) => text.len() != 0,
        Err(error) => error.valid_up_to() != 0,
    }
}

/// What a backslash at this place stands for with the bytes behind it, in the string whose quote is
/// at `start`.
fn escape(behind: &[u8], start: usize, place: usize) -> Result<char, LexFault>
    requires { place + length behind.now < 2 ^ 64 }
    ensures some { IfOk result (λ _. 0 < length behind.now) }
    ensures ok { IfOk result (λ character. escaped (slice_index behind.now 0) ≡ Some character) }
    ensures none { IfErr result (λ _. 0 < length behind.now
        → escaped (slice_index behind.now 0) ≡ None) }
    ensures err { IfErr result (λ fault. IsRefusal fault (after_backslash start place behind.now)) }
{
    match behind {
        [] => Err(LexFault::OpenString { at: start }),
        [b'"', ..] => Ok('"'),
        [b'\\', ..] => Ok('\\'),
        [b'n', ..] => Ok('\n'),
        [b't', ..] => Ok('\t'),
        _ if begins_character(behind) => Err(LexFault::BadByte { at: place }),
        _ => Err(LexFault::BadByte { at: place + 1 }),
    }
}

/// The string whose opening quote stands at this place, before the rest, and how many bytes it
/// takes with its quotes.
pub fn string(alloc: Global, rest: &[u8], at: usize) -> Result<(TokenKind, usize), LexFault>
    requires { at + length rest.now < 2 ^ 64 - 1 }
    ensures { IsRead (token_step source at (quote ∷ rest.now)) result }
{
    let mut contents = String::new(alloc);
    let mut len = 0;
    loop {
        let run = plain_run(&rest[len..]);
        let plain = text_of(&rest[len..len + run], at + 1 + len)?;
        contents.push_str(plain)?;
        len += run;
        if len == rest.len() {
            return Err(LexFault::OpenString { at });
        }
        if rest[len] == b'"' {
            return Ok((TokenKind::Str(contents), len + 2));
        }
        let character = escape(&rest[len + 1..], at, at + 1 + len)?;
        contents.push(character)?;
        len += 2;
    }
}

/// The Uri whose opening back quote stands at this place, before the rest, and how many bytes it
/// takes with its back quotes.
pub fn uri(alloc: Global, rest: &[u8], at: usize) -> Result<(TokenKind, usize), LexFault>
    requires { at + length rest.now < 2 ^ 64 - 1 }
    ensures { IsRead (token_step source at (back_quote ∷ rest.now)) result }
{
    let len = inside_run(rest);
    let inside = text_of(&rest[..len], at + 1)?;
    if len == rest.len() {
        return Err(LexFault::OpenString { at });
    }
    let contents = String::from_str(alloc, inside)?;
    Ok((TokenKind::Uri(contents), len + 2))
}
