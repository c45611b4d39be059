ghost use Rattle.std.specs.Prelude.{◌≡◌, IfOk, string_bytes};
ghost use Rattle.made_input.specs.MadeInput.{body_text, channel, lane_of, lane_text, made_text, number_of, receive_text, start_text};

use std::alloc::{AllocError, Global};

/// The source of the made input that takes so many steps: the text of its four lanes.
///
/// From 4 steps on each lane takes a quarter of them, and the first lanes one more each where 4 does not divide their
/// number. Want of memory is the one error.
pub fn made_input(alloc: Global, steps: u32) -> Result<Vec<u8>, AllocError>
    ensures { IfOk result (λ text. text.items ≡ made_text steps) }
{
    let first = lane_of(alloc, steps, 0)?;
    let second = lane_of(alloc, steps, 1)?;
    let third = lane_of(alloc, steps, 2)?;
    let fourth = lane_of(alloc, steps, 3)?;
    let text = format!(in alloc; "{first} |\n{second} |\n{third} |\n{fourth}\n")?;
    Ok(text.into_bytes())
}

/// A lane's text in the made input of so many steps.
fn lane_of(alloc: Global, steps: u32, lane: u32) -> Result<String, AllocError>
    ensures { IfOk result (λ text. string_bytes text ≡ lane_of steps lane) }
{
    lane_text(alloc, lane, number_of(lane, steps))
}

/// The number that a lane counts down from.
fn number_of(lane: u32, steps: u32) -> u32
    ensures { result ≡ number_of lane steps }
{
    let each = (steps / 4).saturating_sub(1);
    if lane < steps % 4 { each + 1 } else { each }
}

/// The text of a lane that counts down from this number.
fn lane_text(alloc: Global, lane: u32, number: u32) -> Result<String, AllocError>
    ensures { IfOk result (λ text. string_bytes text ≡ lane_text lane number) }
{
    let start = start_text(alloc, lane, number)?;
    let receive = receive_text(alloc, lane)?;
    format!(in alloc; "{start} | {receive}")
}

/// What a lane begins with.
fn start_text(alloc: Global, lane: u32, number: u32) -> Result<String, AllocError>
    ensures { IfOk result (λ text. string_bytes text ≡ start_text lane number) }
{
    let count = channel(alloc, "t", lane)?;
    let step = channel(alloc, "v", lane)?;
    format!(in alloc; "{count}!({number}, 0) | {step}!(1)")
}

/// The receive that makes a lane's steps.
fn receive_text(alloc: Global, lane: u32) -> Result<String, AllocError>
    ensures { IfOk result (λ text. string_bytes text ≡ receive_text lane) }
{
    let count = channel(alloc, "t", lane)?;
    let step = channel(alloc, "v", lane)?;
    let body = body_text(alloc, lane)?;
    format!(in alloc; "for (@k, @s <= {count}; @v <= {step}) {{ {body} }}")
}

/// What a step of a lane comes to.
fn body_text(alloc: Global, lane: u32) -> Result<String, AllocError>
    ensures { IfOk result (λ text. string_bytes text ≡ body_text lane) }
{
    let count = channel(alloc, "t", lane)?;
    let step = channel(alloc, "v", lane)?;
    let sum = channel(alloc, "sum", lane)?;
    format!(in alloc;
        "if (k > 0) {{ {count}!(k - 1, s + v) | {step}!(v + 1) }} else {{ {sum}!(s) }}"
    )
}

/// A channel of a lane.
fn channel(alloc: Global, word: &str, lane: u32) -> Result<String, AllocError>
    ensures { IfOk result (λ text. string_bytes text ≡ channel word.now lane) }
{
    format!(in alloc; "@[\"{word}\", {lane}]")
}
