//! The kinds of bytes, and the tables of keys and signs.
ghost use Rattle.std.specs.Prelude.{◌≡◌, length};
ghost use Rattle.std.specs.List.{list_any, position_or_len, prefix_len};
ghost use Rattle.std.specs.Str.{bytes_eq};
ghost use Rattle.tokens.specs.Bytes.{line_feed, is_blank, is_digit, is_word_start, is_word_byte};
ghost use Rattle.tokens.specs.Tables.{keys, signs, is_among};

use rho_lanes::{ByteClass, class_run};

/// The keys.
const KEYS: [&[u8]; 23] = [
    b"Nil",
    b"new",
    b"in",
    b"for",
    b"contract",
    b"match",
    b"if",
    b"else",
    b"true",
    b"false",
    b"not",
    b"and",
    b"or",
    b"Set",
    b"Bool",
    b"Int",
    b"String",
    b"Uri",
    b"ByteArray",
    b"bundle",
    b"bundle0",
    b"bundle+",
    b"bundle-",
];

/// The signs.
const SIGNS: [&[u8]; 37] = [
    b"...", b"<<-", b"!!", b"!=", b"<-", b"<=", b">=", b"==", b"=>", b"++", b"--", b"/\\", b"\\/",
    b"|", b"!", b"(", b")", b"{", b"}", b"[", b"]", b",", b";", b"&", b":", b".", b"@", b"*", b"<",
    b">", b"=", b"+", b"-", b"/", b"%", b"~", b"_",
];

/// Whether the byte is a space, a tab, a line feed or a carriage return.
pub fn is_blank(byte: u8) -> bool
    ensures { result ≡ is_blank byte }
{
    byte == b' ' || byte == b'\t' || byte == b'\n' || byte == b'\r'
}

/// Whether the byte is an ASCII digit.
pub fn is_digit(byte: u8) -> bool
    ensures { result ≡ is_digit byte }
{
    byte.is_ascii_digit()
}

/// Whether a word may begin with the byte, whatever follows it: an ASCII letter or an apostrophe.
pub fn is_word_start(byte: u8) -> bool
    ensures { result ≡ is_word_start byte }
{
    byte.is_ascii_alphabetic() || byte == b'\''
}

/// Whether a word may go on with the byte.
pub fn is_word_byte(byte: u8) -> bool
    ensures { result ≡ is_word_byte byte }
{
    is_word_start(byte) || is_digit(byte) || byte == b'_'
}

/// How many bytes at the front are spaces, tabs, line feeds or carriage returns.
pub fn blank_run(bytes: &[u8]) -> usize
    ensures { result ≡ prefix_len is_blank bytes.now }
{
    class_run(bytes, 0, ByteClass::Space)
}

/// How many bytes at the front a word may go on with.
pub fn word_run(bytes: &[u8]) -> usize
    ensures { result ≡ prefix_len is_word_byte bytes.now }
{
    class_run(bytes, 0, ByteClass::Word)
}

/// How many bytes at the front are digits.
pub fn digit_run(bytes: &[u8]) -> usize
    ensures { result ≡ prefix_len is_digit bytes.now }
{
    class_run(bytes, 0, ByteClass::Digit)
}

fn contains(table: &[&[u8]], bytes: &[u8]) -> bool
    ensures { result ≡ list_any (λ row. bytes_eq row.now bytes.now) table.now }
{
    table.iter().any(|row| *row == bytes)
}

/// Whether the bytes are a key.
pub fn is_key(bytes: &[u8]) -> bool
    ensures { result ≡ is_among keys bytes.now }
{
    contains(&KEYS, bytes)
}

/// Whether the bytes are a sign.
pub fn is_sign(bytes: &[u8]) -> bool
    ensures { result ≡ is_among signs bytes.now }
{
    contains(&SIGNS, bytes)
}
