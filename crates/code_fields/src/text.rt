// Texts in codes: strings, Uris and names of methods.
ghost use Rattle.std.specs.Prelude.{◌≡◌, ◌<◌, ◌++◌, ◌&&◌, ℕ, List, length, nat_lt, leb, IsTrue, IsUtf8};
ghost use Rattle.std.specs.List.{list_all, list_any};
ghost use Rattle.std.specs.Str.{bytes_eq};
ghost use Rattle.calculus.specs.Form.{is_letter, goes_on_word, is_word, keys, all_go_on};
ghost use Rattle.code_faults.specs.Texts.{HasForm, BeginsText, EndsClear, character_len, begins_word};

use code_faults::TextKind;
use std::str;

// The keys, which are no names of methods.
const KEYS: [&[u8]; 21] = [
    b"Nil",
    b"new",
    b"in",
    b"for",
    b"contract",
    b"match",
    b"if",
    b"else",
    b"true",
    b"false",
    b"not",
    b"and",
    b"or",
    b"Set",
    b"Bool",
    b"Int",
    b"String",
    b"Uri",
    b"ByteArray",
    b"bundle",
    b"bundle0",
];

/// Whether bytes are such a text.
pub(crate) fn is_text(kind: TextKind, bytes: &[u8]) -> bool
    ensures only { IsTrue result → HasForm kind bytes.now }
    ensures all { HasForm kind bytes.now → IsTrue result }
{
    match kind {
        TextKind::Str => is_utf8(bytes),
        TextKind::Uri => is_utf8(bytes) && !bytes.contains(&b'`'),
        TextKind::Word => is_word(bytes) && !is_key(bytes),
    }
}

/// Whether bytes begin such a text of `len` bytes, which is longer than they are.
pub(crate) fn begins_text(kind: TextKind, bytes: &[u8], len: usize) -> bool
    requires { length bytes.now < len }
    ensures only { IsTrue result → BeginsText kind bytes.now len }
    ensures all { BeginsText kind bytes.now len → IsTrue result }
{
    match kind {
        TextKind::Str => begins_utf8(bytes, len),
        TextKind::Uri => begins_utf8(bytes, len) && !bytes.contains(&b'`'),
        TextKind::Word => begins_word(bytes),
    }
}

fn is_utf8(bytes: &[u8]) -> bool
    ensures only { IsTrue result → IsUtf8 bytes.now }
    ensures all { IsUtf8 bytes.now → IsTrue result }
{
    str::from_utf8(bytes).is_ok()
}

// A character that the bytes end in has to end within the length.
fn begins_utf8(bytes: &[u8], len: usize) -> bool
    requires { length bytes.now < len }
    ensures only { IsTrue result → EndsClear bytes.now len }
    ensures all { (x : List ℕ) → IsUtf8 (bytes.now ++ x) → length (bytes.now ++ x) ≡ len → IsTrue result }
{
    match str::from_utf8(bytes) {
        Ok(_) => true,
        Err(fault) => {
            let valid = fault.valid_up_to();
            fault.error_len().is_none() && is_cut(&bytes[valid..], len - valid)
        }
    }
}

// Whether a character begins so that has more bytes, of at most this number.
fn is_cut(bytes: &[u8], room: usize) -> bool
    ensures { result ≡ (nat_lt (length bytes.now) (character_len bytes.now) && leb (character_len bytes.now) room) }
{
    let whole = character_len(bytes);
    bytes.len() < whole && whole <= room
}

// How many bytes the character has that these bytes begin.
fn character_len(bytes: &[u8]) -> usize
    ensures { result ≡ character_len bytes.now }
{
    match bytes {
        [] => 0,
        [first, ..] => {
            if *first < 0x80 {
                1
            } else if *first < 0xE0 {
                2
            } else if *first < 0xF0 {
                3
            } else {
                4
            }
        }
    }
}

fn contains(table: &[&[u8]], bytes: &[u8]) -> bool
    ensures { result ≡ list_any (λ row. bytes_eq row.now bytes.now) table.now }
{
    table.iter().any(|row| *row == bytes)
}

fn is_key(bytes: &[u8]) -> bool
    ensures { result ≡ list_any (λ row. bytes_eq row bytes.now) keys }
{
    contains(&KEYS, bytes)
}

fn is_letter(byte: u8) -> bool
    ensures { result ≡ is_letter byte }
{
    byte.is_ascii_alphabetic() || byte == b'\''
}

fn goes_on_word(byte: u8) -> bool
    ensures { result ≡ goes_on_word byte }
{
    is_letter(byte) || byte.is_ascii_digit() || byte == b'_'
}

fn all_go_on(bytes: &[u8]) -> bool
    ensures { result ≡ list_all goes_on_word bytes.now }
{
    bytes.iter().all(|byte| goes_on_word(*byte))
}

fn is_word(bytes: &[u8]) -> bool
    ensures { result ≡ is_word bytes.now }
{
    match bytes {
        [] => false,
        [only] => is_letter(*only),
        [first, others @ ..] => (is_letter(*first) || *first == b'_') && all_go_on(others),
    }
}

// Whether more bytes make these a word.
fn begins_word(bytes: &[u8]) -> bool
    ensures { result ≡ begins_word bytes.now }
{
    match bytes {
        [] => true,
        [first, others @ ..] => (is_letter(*first) || *first == b'_') && all_go_on(others),
    }
}
