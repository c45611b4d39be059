ghost use Rattle.std.specs.Prelude.{◌≡◌, ◌⊎◌, List, [], Ok, Err, MatchResult, map};
ghost use Rattle.event_log.specs.View.{header_of, step_of};
ghost use Rattle.event_log.specs.Reading.{field, number_of_4, number_of_8, name, version, header, count, data_count, data_ids, step, steps, end, log_of};
ghost use Rattle.calculus.specs.Log.{Header, Step};

use crate::fault::LogFault;
use crate::log::{Log, LogHeader, LogStep, MOST_DATA, MOST_STEPS};
use calculus::Digest;
use std::alloc::Global;

/// What the text of every log begins with.
const NAME: &[u8] = b"RHOLOG";

/// The version of a log's text, after its name.
const VERSION: u8 = 0x01;

// The next 32 bytes.
fn take_digest<'a>(whole: usize, bytes: &'a [u8]) -> Result<(Digest, &'a [u8]), LogFault>
    ensures { MatchResult result (λ r. field whole 32 bytes.now ≡ Ok (r.0.0, r.1.now)) (λ e. field whole 32 bytes.now ≡ Err e) }
{
    match bytes.split_first_chunk::<32>() {
        Some((digest, rest)) => Ok((Digest(*digest), rest)),
        None => Err(LogFault::Short { at: whole }),
    }
}

// The next four bytes as a number, the high one first.
fn take_u32<'a>(whole: usize, bytes: &'a [u8]) -> Result<(u32, &'a [u8]), LogFault>
    ensures { MatchResult result (λ r. number_of_4 whole bytes.now ≡ Ok (r.0, r.1.now)) (λ e. number_of_4 whole bytes.now ≡ Err e) }
{
    match bytes.split_first_chunk::<4>() {
        Some((number, rest)) => Ok((u32::from_be_bytes(*number), rest)),
        None => Err(LogFault::Short { at: whole }),
    }
}

// The next eight bytes as a number, the high one first.
fn take_u64<'a>(whole: usize, bytes: &'a [u8]) -> Result<(u64, &'a [u8]), LogFault>
    ensures { MatchResult result (λ r. number_of_8 whole bytes.now ≡ Ok (r.0, r.1.now)) (λ e. number_of_8 whole bytes.now ≡ Err e) }
{
    match bytes.split_first_chunk::<8>() {
        Some((number, rest)) => Ok((u64::from_be_bytes(*number), rest)),
        None => Err(LogFault::Short { at: whole }),
    }
}

// What follows the bytes of the name that are still to come.
fn take_name<'a>(whole: usize, wanted: &[u8], bytes: &'a [u8]) -> Result<&'a [u8], LogFault>
    ensures { MatchResult result (λ r. name whole wanted.now bytes.now ≡ Ok r.now) (λ e. name whole wanted.now bytes.now ≡ Err e) }
{
    match wanted {
        [] => Ok(bytes),
        [first, others @ ..] => match bytes {
            [] => Err(LogFault::Short { at: whole }),
            [byte, rest @ ..] if byte == first => take_name(whole, others, rest),
            _ => Err(LogFault::Bad {
                at: whole.saturating_sub(bytes.len()),
            }),
        },
    }
}

// What follows the version.
fn take_version<'a>(whole: usize, bytes: &'a [u8]) -> Result<&'a [u8], LogFault>
    ensures { MatchResult result (λ r. version whole bytes.now ≡ Ok r.now) (λ e. version whole bytes.now ≡ Err e) }
{
    match bytes.split_first() {
        None => Err(LogFault::Short { at: whole }),
        Some((&VERSION, rest)) => Ok(rest),
        Some((found, _)) => Err(LogFault::Version { found: *found }),
    }
}

// A header after its version.
fn take_header<'a>(whole: usize, bytes: &'a [u8]) -> Result<(LogHeader, &'a [u8]), LogFault>
    ensures { MatchResult result (λ r. header whole bytes.now ≡ Ok (header_of r.0, r.1.now)) (λ e. header whole bytes.now ≡ Err e) }
{
    let (base, rest) = take_digest(whole, bytes)?;
    let (source, rest) = take_digest(whole, rest)?;
    let (prices, rest) = take_digest(whole, rest)?;
    let (limit, rest) = take_u64(whole, rest)?;
    let header = LogHeader {
        base,
        source,
        prices,
        limit,
    };
    Ok((header, rest))
}

// The number of steps.
fn take_count<'a>(whole: usize, bytes: &'a [u8]) -> Result<(u32, &'a [u8]), LogFault>
    ensures { MatchResult result (λ r. count whole bytes.now ≡ Ok (r.0, r.1.now)) (λ e. count whole bytes.now ≡ Err e) }
{
    let (entries, rest) = take_u32(whole, bytes)?;
    if entries as usize <= MOST_STEPS {
        Ok((entries, rest))
    } else {
        Err(LogFault::TooLong { entries })
    }
}

// The number of data of a step.
fn take_data_count<'a>(whole: usize, bytes: &'a [u8]) -> Result<(u8, &'a [u8]), LogFault>
    ensures { MatchResult result (λ r. data_count whole bytes.now ≡ Ok (r.0, r.1.now)) (λ e. data_count whole bytes.now ≡ Err e) }
{
    match bytes.split_first() {
        None => Err(LogFault::Short { at: whole }),
        Some((count, rest)) => {
            if *count >= 1 && *count as usize <= MOST_DATA {
                Ok((*count, rest))
            } else {
                Err(LogFault::Bad {
                    at: whole.saturating_sub(bytes.len()),
                })
            }
        }
    }
}

// So many ids.
fn take_ids<'a>(
    alloc: Global,
    whole: usize,
    bytes: &'a [u8],
    many: u8,
) -> Result<(Vec<Digest>, &'a [u8]), LogFault>
    ensures { MatchResult result (λ r. data_ids whole many bytes.now ≡ Ok (map (λ id. id.0) r.0.items, r.1.now))
        (λ e. (e ≡ LogFault.NoMemory) ⊎ (data_ids whole many bytes.now ≡ Err e)) }
{
    let mut ids = Vec::with_capacity(alloc, many as usize)?;
    let mut rest = bytes;
    for _i in 0..many {
        let (id, after) = take_digest(whole, rest)?;
        ids.push(id)?;
        rest = after;
    }
    Ok((ids, rest))
}

// A step.
fn take_step<'a>(
    alloc: Global,
    whole: usize,
    bytes: &'a [u8],
) -> Result<(LogStep, &'a [u8]), LogFault>
    ensures { MatchResult result (λ r. step whole bytes.now ≡ Ok (step_of r.0, r.1.now))
        (λ e. (e ≡ LogFault.NoMemory) ⊎ (step whole bytes.now ≡ Err e)) }
{
    let (cont, rest) = take_digest(whole, bytes)?;
    let (many, rest) = take_data_count(whole, rest)?;
    let (taken, rest) = take_ids(alloc, whole, rest, many)?;
    let (repeat, rest) = take_u32(whole, rest)?;
    Ok((
        LogStep {
            cont,
            taken,
            repeat,
        },
        rest,
    ))
}

// So many steps.
fn take_steps<'a>(
    alloc: Global,
    whole: usize,
    bytes: &'a [u8],
    many: u32,
) -> Result<(Vec<LogStep>, &'a [u8]), LogFault>
    ensures { MatchResult result (λ r. steps whole many bytes.now ≡ Ok (map step_of r.0.items, r.1.now))
        (λ e. (e ≡ LogFault.NoMemory) ⊎ (steps whole many bytes.now ≡ Err e)) }
{
    let mut found = Vec::new(alloc);
    let mut rest = bytes;
    for _i in 0..many {
        let (step, after) = take_step(alloc, whole, rest)?;
        found.push(step)?;
        rest = after;
    }
    Ok((found, rest))
}

// The end of a text.
fn take_end(whole: usize, bytes: &[u8]) -> Result<(), LogFault>
    ensures { MatchResult result (λ r. bytes.now ≡ []) (λ e. (log : Header × List Step) → end whole log bytes.now ≡ Err e) }
{
    match bytes {
        [] => Ok(()),
        [_, ..] => Err(LogFault::Bad {
            at: whole.saturating_sub(bytes.len()),
        }),
    }
}

/// Reads the text of a log, version 1.
///
/// The first fault from the left counts: `Bad` at a wrong byte of the name, at a number of data outside 1 to 16 and at
/// a byte past the end, `Version` for another version than 1, `TooLong` for more than 1,048,608 steps, and `Short`,
/// with the length, where the bytes end before a field that must stand there is whole. Memory is taken as steps are
/// read, in proportion to the bytes.
#[tactic(auto, unfolding(crate::specs::Reading::log_of))]
pub fn read_log(alloc: Global, bytes: &[u8]) -> Result<Log, LogFault>
    ensures log { MatchResult result (λ log. log_of bytes.now ≡ Ok (header_of log.header, map step_of log.steps.items))
        (λ e. (e ≡ LogFault.NoMemory) ⊎ (log_of bytes.now ≡ Err e)) }
{
    let whole = bytes.len();
    let rest = take_name(whole, NAME, bytes)?;
    let rest = take_version(whole, rest)?;
    let (header, rest) = take_header(whole, rest)?;
    let (many, rest) = take_count(whole, rest)?;
    let (steps, rest) = take_steps(alloc, whole, rest, many)?;
    take_end(whole, rest)?;
    Ok(Log { header, steps })
}
