// Numbers in words.
ghost use Rattle.std.specs.Prelude.{◌≡◌};
ghost use Rattle.std.specs.Char.{is_ascii_digit};
ghost use Rattle.std.specs.List.{list_all};
ghost use Rattle.command_words.specs.Commands.{number_between, number_in, number_of};
ghost use Rattle.command_words.specs.Faults.{Finds};

use crate::argument::Argument;
use crate::fault::Fault;

// The number that the text of an argument is: 1 to 20 decimal digits of a value below 2^64.
pub(crate) fn number<'a>(what: Argument, text: &str) -> Result<u64, Fault<'a>>
    ensures { Finds result (number_in what text.now) }
{
    number_of(text).ok_or(Fault::BadNumber { what })
}

// The number from `least` to `most` that the text of an argument is.
pub(crate) fn number_between<'a>(
    what: Argument,
    least: u32,
    most: u32,
    text: &str,
) -> Result<u32, Fault<'a>>
    ensures { Finds result (number_between what least most text.now) }
{
    match number_of(text) {
        Some(number) if u64::from(least) <= number && number <= u64::from(most) => Ok(
            number as u32,
        ),
        _ => Err(Fault::BadNumber { what }),
    }
}

fn number_of(text: &str) -> Option<u64>
    ensures { result ≡ number_of text.now }
{
    if text.is_empty() || text.len() > 20 || !are_digits(text.as_bytes()) {
        return None;
    }
    text.parse().ok()
}

fn are_digits(text: &[u8]) -> bool
    ensures { result ≡ list_all is_ascii_digit text.now }
{
    text.iter().all(|b| b.is_ascii_digit())
}
