//! Integers.
ghost use Rattle.rho_lexer.specs.Meaning.{IsRead};
ghost use Rattle.std.specs.List.{AllPass};
ghost use Rattle.std.specs.Prelude.{◌≡◌, ◌<◌, ◌-◌, ◌^◌, length, min, slice_index, true};
ghost use Rattle.tokens.specs.Bytes.{is_digit};
ghost use Rattle.tokens.specs.Reading.{token_step};
ghost use Rattle.tokens.specs.Spelling.{decimal};
ghost use Rattle.tokens.specs.Token.{source};

use crate::bytes::digit_run;
use crate::token::{LexFault, TokenKind};

/// The greatest value of an integer. It is spelt after a minus sign alone.
const GREATEST: u64 = 1 << 63;

/// The number that the digits spell, or `u64::MAX` where it is greater.
fn saturating_value(digits: &[u8]) -> u64
    requires { AllPass is_digit digits.now }
    ensures { result ≡ min (decimal digits.now) (2 ^ 64 - 1) }
{
    let mut value: u64 = 0;
    for digit in digits {
        value = value
            .saturating_mul(10)
            .saturating_add(u64::from(*digit - b'0'));
    }
    value
}

/// The integer that a text begins with, and how many bytes it takes.
pub fn integer(text: &[u8], at: usize) -> Result<(TokenKind, usize), LexFault>
    requires some { 0 < length text.now }
    requires digit { is_digit (slice_index text.now 0) ≡ true }
    ensures { IsRead (token_step source at text.now) result }
{
    let len = digit_run(text);
    let value = saturating_value(&text[..len]);
    if value > GREATEST {
        return Err(LexFault::LiteralTooLarge { at });
    }
    Ok((TokenKind::Int(value), len))
}
