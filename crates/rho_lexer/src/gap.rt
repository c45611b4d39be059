//! What stands between tokens.
ghost use Rattle.rho_lexer.specs.Meaning.{IsGap};
ghost use Rattle.std.specs.List.{position_or_len};
ghost use Rattle.std.specs.Prelude.{◌≡◌, ◌==◌, ◌+◌, ◌<◌, ◌≤◌, IfSome, length};
ghost use Rattle.tokens.specs.Bytes.{line_feed};
ghost use Rattle.tokens.specs.Fronts.{place_of};

use crate::bytes::{blank_run, is_blank};
use crate::token::LexFault;

/// How many bytes come before the first line feed, or all of them.
fn line_len(text: &[u8]) -> usize
    ensures { result ≡ position_or_len (λ byte. byte == line_feed) text.now }
{
    for (i, byte) in text.iter().enumerate() {
        if *byte == b'\n' {
            return i;
        }
    }
    text.len()
}

/// The first place from which the text goes on with the needle.
fn place_of(needle: &[u8], text: &[u8]) -> Option<usize>
    ensures value { result ≡ place_of needle.now text.now }
    ensures within { IfSome result (λ place. place + length needle.now ≤ length text.now) }
{
    for i in 0..text.len() {
        if text[i..].starts_with(needle) {
            return Some(i);
        }
    }
    None
}

/// How many bytes the blanks or the comment take that a text begins with, or `None` where neither does.
pub fn gap(text: &[u8], at: usize) -> Result<Option<usize>, LexFault>
    requires { 0 < length text.now }
    ensures { IsGap at text.now result }
{
    if is_blank(text[0]) {
        return Ok(Some(blank_run(text)));
    }
    if text.starts_with(b"//") {
        return Ok(Some(line_len(text)));
    }
    if !text.starts_with(b"/*") {
        return Ok(None);
    }
    match place_of(b"*/", &text[2..]) {
        Some(len) => Ok(Some(len + 4)),
        None => Err(LexFault::OpenComment { at }),
    }
}
