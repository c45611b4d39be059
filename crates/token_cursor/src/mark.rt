//! The texts of keys and signs.
ghost use Rattle.grammar.specs.Terminals.{mark_bytes, sees};
ghost use Rattle.token_cursor.specs.Meaning.{is_key, is_sign, kind_terminal};
ghost use Rattle.std.specs.Prelude.{◌≡◌, [], ◌∷◌};

use grammar::Mark;
use rho_lexer::TokenKind;

/// The text of a mark; the end has none.
fn text(mark: Mark) -> &'static str
    ensures { result.now ≡ mark_bytes mark }
{
    match mark {
        Mark::Nil => "Nil",
        Mark::New => "new",
        Mark::In => "in",
        Mark::For => "for",
        Mark::Contract => "contract",
        Mark::Match => "match",
        Mark::If => "if",
        Mark::Else => "else",
        Mark::True => "true",
        Mark::False => "false",
        Mark::Not => "not",
        Mark::And => "and",
        Mark::Or => "or",
        Mark::Set => "Set",
        Mark::Bool => "Bool",
        Mark::Int => "Int",
        Mark::String => "String",
        Mark::Uri => "Uri",
        Mark::ByteArray => "ByteArray",
        Mark::Bundle => "bundle",
        Mark::BundleNeither => "bundle0",
        Mark::BundleWrite => "bundle+",
        Mark::BundleRead => "bundle-",
        Mark::Ellipsis => "...",
        Mark::PeekArrow => "<<-",
        Mark::DoubleBang => "!!",
        Mark::Unequal => "!=",
        Mark::Arrow => "<-",
        Mark::LessEqual => "<=",
        Mark::GreaterEqual => ">=",
        Mark::Equal => "==",
        Mark::FatArrow => "=>",
        Mark::DoublePlus => "++",
        Mark::DoubleMinus => "--",
        Mark::Both => "/\\",
        Mark::Either => "\\/",
        Mark::Bar => "|",
        Mark::Bang => "!",
        Mark::Open => "(",
        Mark::Close => ")",
        Mark::OpenBrace => "{",
        Mark::CloseBrace => "}",
        Mark::OpenSquare => "[",
        Mark::CloseSquare => "]",
        Mark::Comma => ",",
        Mark::Semicolon => ";",
        Mark::Ampersand => "&",
        Mark::Colon => ":",
        Mark::Dot => ".",
        Mark::At => "@",
        Mark::Star => "*",
        Mark::Less => "<",
        Mark::Greater => ">",
        Mark::Assign => "=",
        Mark::Plus => "+",
        Mark::Minus => "-",
        Mark::Slash => "/",
        Mark::Percent => "%",
        Mark::Tilde => "~",
        Mark::Underscore => "_",
        Mark::End => "",
    }
}

/// Whether the mark is a key.
fn is_key(mark: Mark) -> bool
    ensures { result ≡ is_key mark }
{
    matches!(
        mark,
        Mark::Nil
            | Mark::New
            | Mark::In
            | Mark::For
            | Mark::Contract
            | Mark::Match
            | Mark::If
            | Mark::Else
            | Mark::True
            | Mark::False
            | Mark::Not
            | Mark::And
            | Mark::Or
            | Mark::Set
            | Mark::Bool
            | Mark::Int
            | Mark::String
            | Mark::Uri
            | Mark::ByteArray
            | Mark::Bundle
            | Mark::BundleNeither
            | Mark::BundleWrite
            | Mark::BundleRead
    )
}

/// Whether the mark is a sign.
fn is_sign(mark: Mark) -> bool
    ensures { result ≡ is_sign mark }
{
    !is_key(mark) && !matches!(mark, Mark::End)
}

/// Whether a token is this mark.
pub fn is_mark(kind: &TokenKind, mark: Mark) -> bool
    ensures { result ≡ sees mark (kind_terminal kind.now ∷ []) }
{
    match kind {
        TokenKind::Key(found) => is_key(mark) && found.as_str() == text(mark),
        TokenKind::Sign(found) => is_sign(mark) && found.as_str() == text(mark),
        TokenKind::End => mark == Mark::End,
        _ => false,
    }
}
