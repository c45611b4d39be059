// What is kept of rows beside them.
ghost use Rattle.std.specs.Prelude.{◌≡◌, ◌≤◌, ◌+◌, ◌∷◌, [], drop, length, map, take, IfOk};
ghost use Rattle.sha2.specs.Sha256.{sha256};
ghost use Rattle.calculus.specs.Code.{code as code_of_term};
ghost use Rattle.calculus.specs.Root.{group_code, key};
ghost use Rattle.calculus.specs.Rows.{row_code as code_of_row};
ghost use Rattle.checkpoint.specs.Marks.{row_mark, seen_mark, AreMarks};

use calculus::Digest;
use rho_term::{Op, Term};
use sha2::{Digest as _, Sha256};
use space_row::{Row, row_key};
use std::alloc::{AllocError, Global};
use term_encoder::code_len;

// How many bytes stand before the channel in the code of a send: its first byte and its id.
const BEFORE_CHANNEL: usize = 33;

/// What is kept of a row: the key of its group, and the length of its code.
#[derive(Clone, Copy, Debug)]
pub struct Mark {
    pub key: Digest,
    pub len: usize,
}

// The marks of these rows, which have these codes.
pub(crate) fn marks_of(
    alloc: Global,
    rows: &[Row],
    codes: &[&[u8]],
) -> Result<Vec<Mark>, AllocError>
    requires { map (λ c. c.now) codes.now ≡ map code_of_row rows.now }
    ensures { IfOk result (λ v. AreMarks v.items rows.now) }
{
    let mut marks = Vec::with_capacity(alloc, rows.len())?;
    for place in 0..rows.len() {
        let mark = mark_of(alloc, &rows[place], codes[place])?;
        marks.push(mark)?;
    }
    Ok(marks)
}

// The mark of this row, which has this code.
fn mark_of(alloc: Global, row: &Row, code: &[u8]) -> Result<Mark, AllocError>
    requires { code.now ≡ code_of_row row.now }
    ensures { IfOk result (λ m. seen_mark m ≡ row_mark row.now) }
{
    let key = key_of(alloc, row, code)?;
    Ok(Mark {
        key,
        len: code.len(),
    })
}

// The key of the group of this row, which has this code. Of a send nothing is copied or encoded.
fn key_of(alloc: Global, row: &Row, code: &[u8]) -> Result<Digest, AllocError>
    requires { code.now ≡ code_of_row row.now }
    ensures { IfOk result (λ d. d.0 ≡ key row.now) }
{
    match row.op() {
        Op::Produce { channel, .. } => Ok(key_of_one(channel_in(channel, code))),
        Op::Consume { .. } => row_key(alloc, row),
    }
}

// The code of this channel, where it stands in the code of a send on it.
fn channel_in<'a>(channel: &Term, code: &'a [u8]) -> &'a [u8]
    requires within { 33 + length (code_of_term channel.now) ≤ length code.now }
    requires is { take (length (code_of_term channel.now)) (drop 33 code.now) ≡ code_of_term channel.now }
    ensures { result.now ≡ code_of_term channel.now }
{
    let len = code_len(channel) as usize;
    let left = &code[BEFORE_CHANNEL..];
    &left[..len]
}

// The key of the groups of rows that are on one channel, which has this code.
fn key_of_one(channel: &[u8]) -> Digest
    ensures { result.0 ≡ sha256 (group_code (channel.now ∷ [])) }
{
    let mut hasher = Sha256::new();
    hasher.update(&[0, 0, 0, 1]);
    hasher.update(channel);
    Digest(hasher.finalize())
}
