// Texts by their characters.
ghost use Rattle.std.specs.Prelude.{◌≡◌, ◌≤◌, ◌<◌, MatchOption, pos, length};
ghost use Rattle.calculus.specs.Bytes.{joined};
ghost use Rattle.calculus.specs.Methods.{slice};
ghost use Rattle.calculus.specs.Operators.{an_int, of_text};
ghost use Rattle.calculus.specs.Texts.{characters};
ghost use Rattle.calculus.specs.declared.plain.Ground.TheVariants.{Int};
ghost use Rattle.value_ops.specs.Answers.{AnswersGround};
ghost use Rattle.value_ops.specs.Places.{IsPlace};

use crate::stop::OpStop;
use calculus::{FaultKind, Ground};
use std::alloc::Global;

// How many characters a text has.
pub(crate) fn text_length(text: &str) -> Ground
    ensures { result ≡ Int (pos (length (characters text.now))) }
{
    Ground::Int(text.chars().count() as i64)
}

// The place where the character of this index begins, which after the last one is the text's end.
fn place_of(text: &str, index: usize) -> Option<usize>
    ensures { MatchOption result (length (characters text.now) < index) (IsPlace text.now index) }
{
    let mut passed = 0;
    for (at, _) in text.char_indices() {
        if passed == index {
            return Some(at);
        }
        passed += 1;
    }
    if passed == index {
        Some(text.len())
    } else {
        None
    }
}

// The characters from one index up to and without another.
pub(crate) fn slice_text(
    alloc: Global,
    text: &str,
    from: usize,
    to: usize,
) -> Result<Ground, OpStop>
    requires { from ≤ to }
    ensures { AnswersGround (slice (λ cs. of_text (joined cs)) (characters text.now) (an_int (pos from)) (an_int (pos to))) result }
{
    let Some(start) = place_of(text, from) else {
        return Err(OpStop::Fault(FaultKind::Index));
    };
    let Some(end) = place_of(text, to) else {
        return Err(OpStop::Fault(FaultKind::Index));
    };
    Ok(Ground::Str(String::from_str(alloc, &text[start..end])?))
}
