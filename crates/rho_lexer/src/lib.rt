//! The lexer: a source's bytes to its tokens, or the first place at which it has none.
#![tactic(auto)]

mod bytes;
mod gap;
mod number;
mod quoted;
mod token;
mod word;

ghost use Rattle.rho_lexer.specs.Meaning.{IsRead, refusal_of, spanned_tokens};
ghost use Rattle.std.specs.Prelude.{◌≡◌, ◌⊎◌, ◌+◌, ◌<◌, ◌^◌, IfErr, IfOk, IfSome, List, MatchResult, length};
ghost use Rattle.tokens.specs.Reading.{AreInOrder, HasTokens, IsRefused, token_step};
ghost use Rattle.tokens.specs.Token.{Refusal, Spanned, source};

use gap::gap;
use number::integer;
use quoted::{string, uri};
use std::alloc::Global;
pub use token::{LexFault, Token, TokenKind};
use word::{begins_word, sign, word};

/// The token that the text from this place on begins with, and how many bytes it takes.
fn first_token(alloc: Global, text: &[u8], at: usize) -> Result<(TokenKind, usize), LexFault>
    requires some { 0 < length text.now }
    requires place { at + length text.now < 2 ^ 64 }
    ensures { IsRead (token_step source at text.now) result }
{
    let first = text[0];
    if bytes::is_digit(first) {
        return integer(text, at);
    }
    if first == b'"' {
        return string(alloc, &text[1..], at);
    }
    if first == b'`' {
        return uri(alloc, &text[1..], at);
    }
    if begins_word(text) {
        return word(alloc, text);
    }
    sign(alloc, text, at)
}

/// The tokens of a source, in order. The last one is `End`, at the source's length.
///
/// The scan goes from the left and ends at its first fault: `BadByte` where no token begins, or at
/// the byte of a string or Uri that is not UTF-8 or makes no escape, `OpenString` and `OpenComment` at
/// the opening mark, `LiteralTooLarge` at the first digit of an integer above 2^63.
pub fn lex(alloc: Global, text: &[u8]) -> Result<Vec<Token>, LexFault>
    // What is found are the source's tokens.
    ensures tokens { IfOk result (λ found. HasTokens source text.now (spanned_tokens found.items)) }
    // They stand in order, each with the content that its form has, and the last is `End`, at the
    // source's length.
    ensures order { IfOk result (λ found.
        AreInOrder 0 (length text.now) (spanned_tokens found.items)) }
    // A fault is the one that the source is refused for, unless memory ran out.
    ensures fault { IfErr result (λ fault. IfSome (refusal_of fault) (IsRefused source text.now)) }
    // The tokens are found where the source has tokens, and the fault where it is refused, unless
    // memory runs out.
    ensures only_tokens { (tokens : List Spanned) → HasTokens source text.now tokens
        → MatchResult result (λ found. spanned_tokens found.items ≡ tokens)
        (λ fault. fault ≡ LexFault.NoMemory) }
    ensures only_fault { (r : Refusal) → IsRefused source text.now r
        → MatchResult result (λ _. ⊥)
        (λ fault. (fault ≡ LexFault.NoMemory) ⊎ (refusal_of fault ≡ Some r)) }
{
    let mut tokens = Vec::new(alloc);
    let mut at = 0;
    while at < text.len() {
        match gap(&text[at..], at)? {
            Some(len) => at += len,
            None => {
                let (kind, len) = first_token(alloc, &text[at..], at)?;
                let end = at + len;
                tokens.push(Token {
                    kind,
                    start: at,
                    end,
                })?;
                at = end;
            }
        }
    }
    tokens.push(Token {
        kind: TokenKind::End,
        start: at,
        end: at,
    })?;
    Ok(tokens)
}
