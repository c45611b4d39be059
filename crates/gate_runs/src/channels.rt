//! Eight channels in eight shards, with a receive on each, or a send.
ghost use Rattle.std.specs.Prelude.{IfOk};
ghost use Rattle.calculus.specs.Form.{IsClosed};
ghost use Rattle.sources.specs.Sources.{IsSourceOf};

use rho_term::Term;
use sources::read_source;
use std::alloc::{AllocError, Global};
use table_lines::LineFault;
use term_encoder::shard_of;

/// The term of a source.
pub fn term_of(alloc: Global, source: &[u8]) -> Result<Term, LineFault>
    ensures term { IfOk result (IsSourceOf source.now) }
    ensures closed { IfOk result IsClosed }
{
    match read_source(alloc, source) {
        Ok(term) => Ok(term),
        Err(_) => Err(LineFault::Field),
    }
}

// The shard of the channel that a number is, below 64.
fn shard_of_number(alloc: Global, number: u32) -> Result<u32, LineFault> {
    let digits = format!(in alloc; "{number}")?;
    let term = term_of(alloc, digits.as_bytes())?;
    Ok(shard_of(alloc, &term)?)
}

/// The first eight numbers, from 0 on, whose channels stand in eight shards.
pub fn apart(alloc: Global) -> Result<Vec<u32>, LineFault> {
    let mut found = Vec::new(alloc);
    let mut shards = 0u64;
    for number in 0..1000u32 {
        let bit = 1u64 << (shard_of_number(alloc, number)? & 63);
        if shards & bit == 0 {
            shards |= bit;
            found.push(number)?;
        }
        if found.len() == 8 {
            break;
        }
    }
    Ok(found)
}

/// A receive for each number, in parallel.
pub fn receives(alloc: Global, numbers: &[u32]) -> Result<String, AllocError> {
    parallel(alloc, numbers, "for (@x <- @", ") { Nil }")
}

/// A send for each number, in parallel.
pub fn sends(alloc: Global, numbers: &[u32]) -> Result<String, AllocError> {
    parallel(alloc, numbers, "@", "!(0)")
}

// These texts with each number between them, in parallel.
fn parallel(
    alloc: Global,
    numbers: &[u32],
    before: &str,
    behind: &str,
) -> Result<String, AllocError> {
    let mut text = String::from_str(alloc, "Nil")?;
    for number in numbers {
        text.push_str(format!(in alloc; " | {before}{number}{behind}")?.as_str())?;
    }
    Ok(text)
}
