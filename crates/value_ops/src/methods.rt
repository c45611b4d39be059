ghost use Rattle.std.specs.Prelude.{◌≡◌, ◌≤◌, pos, length, string_bytes};
ghost use Rattle.calculus.specs.Methods.{method_answer, methods, among_methods, nth_at, slice, hex_answer};
ghost use Rattle.calculus.specs.Bytes.{joined};
ghost use Rattle.calculus.specs.Outcome.{gives};
ghost use Rattle.calculus.specs.Texts.{characters, from_hex, to_hex};
ghost use Rattle.calculus.specs.declared.plain.Ground.TheVariants.{Int};
ghost use Rattle.calculus.specs.Shape.{only};
ghost use Rattle.rho_term.specs.Parts.{ground_tree};
ghost use Rattle.calculus.specs.Operators.{a_text, some_bytes, an_int, of_int, of_text, of_bytes, seen};
ghost use Rattle.value_ops.specs.Answers.{Answers, AnswersGround, IsNoCollection, hex_stop};
ghost use Rattle.value_ops.specs.Places.{index_seen, range_seen};

use crate::stop::OpStop;
use crate::texts::{slice_text, text_length};
use crate::values::{ground_of, int_of, process_of};
use calculus::{FaultKind, Ground};
use hex::FromHexError;
use rho_term::Term;
use std::alloc::Global;

/// The value of a method of a value that is no list, tuple, set or map.
///
/// A String has `length()` and `slice(i, j)` in characters, `toUtf8Bytes()` and `hexToBytes()`; a
/// ByteArray has `length()`, `nth(i)`, `slice(i, j)` and `bytesToHex()`. Another name or number of
/// arguments is `NoMethod`, an argument of another kind `WrongType`, and after that an index outside
/// the target `Index`. A text that is no even number of hexadecimal digits is `WrongType`.
pub fn text_method(alloc: Global, name: &str, target: &Term, args: &[Term]) -> Result<Term, OpStop>
    requires { IsNoCollection (seen target.now) }
    ensures { Answers (method_answer name.now target.now args.now) result }
{
    process_of(alloc, on_kind(alloc, name, target, args))
}

// A method of a value of its kind.
fn on_kind(alloc: Global, name: &str, target: &Term, args: &[Term]) -> Result<Ground, OpStop>
    requires { IsNoCollection (seen target.now) }
    ensures { AnswersGround (among_methods name.now args.now (methods (seen target.now))) result }
{
    match ground_of(target) {
        Some(value) => on_ground(alloc, name, value, args),
        None => Err(OpStop::Fault(FaultKind::NoMethod)),
    }
}

fn on_ground(alloc: Global, name: &str, target: &Ground, args: &[Term]) -> Result<Ground, OpStop>
    ensures { AnswersGround (among_methods name.now args.now (methods (seen (only (ground_tree target.now))))) result }
{
    match target {
        Ground::Str(text) => on_text(alloc, name, text, args),
        Ground::Bytes(bytes) => on_bytes(alloc, name, bytes, args),
        _ => Err(OpStop::Fault(FaultKind::NoMethod)),
    }
}

fn on_text(alloc: Global, name: &str, text: &String, args: &[Term]) -> Result<Ground, OpStop>
    ensures { AnswersGround (among_methods name.now args.now (methods (a_text (string_bytes text.now)))) result }
{
    match args {
        [] => match name {
            "length" => Ok(text_length(text.as_str())),
            "toUtf8Bytes" => Ok(Ground::Bytes(Vec::from_slice(alloc, text.as_bytes())?)),
            "hexToBytes" => read_hex(alloc, text.as_str()),
            _ => Err(OpStop::Fault(FaultKind::NoMethod)),
        },
        [i, j] => match name {
            "slice" => part_of_text(alloc, text.as_str(), i, j),
            _ => Err(OpStop::Fault(FaultKind::NoMethod)),
        },
        _ => Err(OpStop::Fault(FaultKind::NoMethod)),
    }
}

fn on_bytes(alloc: Global, name: &str, bytes: &Vec<u8>, args: &[Term]) -> Result<Ground, OpStop>
    ensures { AnswersGround (among_methods name.now args.now (methods (some_bytes bytes.now.items))) result }
{
    match args {
        [] => match name {
            "length" => Ok(bytes_length(bytes.as_slice())),
            "bytesToHex" => write_hex(alloc, bytes.as_slice()),
            _ => Err(OpStop::Fault(FaultKind::NoMethod)),
        },
        [i] => match name {
            "nth" => byte_at(bytes.as_slice(), i),
            _ => Err(OpStop::Fault(FaultKind::NoMethod)),
        },
        [i, j] => match name {
            "slice" => part_of_bytes(alloc, bytes.as_slice(), i, j),
            _ => Err(OpStop::Fault(FaultKind::NoMethod)),
        },
        _ => Err(OpStop::Fault(FaultKind::NoMethod)),
    }
}

// How many bytes these are.
fn bytes_length(bytes: &[u8]) -> Ground
    ensures { result ≡ Int (pos (length bytes.now)) }
{
    Ground::Int(bytes.len() as i64)
}

// The indices that the arguments of `slice` are, the first no greater than the second.
fn range_of(from: &Term, to: &Term) -> Result<(usize, usize), FaultKind>
    ensures { result ≡ range_seen (seen from.now) (seen to.now) }
{
    let (Some(from), Some(to)) = (int_of(from), int_of(to)) else {
        return Err(FaultKind::WrongType);
    };
    if from < 0 || to < from {
        return Err(FaultKind::Index);
    }
    Ok((from as usize, to as usize))
}

// The characters of a text from one index up to and without another.
fn part_of_text(alloc: Global, text: &str, from: &Term, to: &Term) -> Result<Ground, OpStop>
    ensures { AnswersGround (slice (λ cs. of_text (joined cs)) (characters text.now) (seen from.now) (seen to.now)) result }
{
    match range_of(from, to) {
        Ok((start, end)) => slice_text(alloc, text, start, end),
        Err(kind) => Err(OpStop::Fault(kind)),
    }
}

// The bytes from one index up to and without another.
fn part_of_bytes(alloc: Global, bytes: &[u8], from: &Term, to: &Term) -> Result<Ground, OpStop>
    ensures { AnswersGround (slice of_bytes bytes.now (seen from.now) (seen to.now)) result }
{
    match range_of(from, to) {
        Ok((start, end)) => slice_bytes(alloc, bytes, start, end),
        Err(kind) => Err(OpStop::Fault(kind)),
    }
}

fn slice_bytes(alloc: Global, bytes: &[u8], from: usize, to: usize) -> Result<Ground, OpStop>
    requires { from ≤ to }
    ensures { AnswersGround (slice of_bytes bytes.now (an_int (pos from)) (an_int (pos to))) result }
{
    if to > bytes.len() {
        return Err(OpStop::Fault(FaultKind::Index));
    }
    Ok(Ground::Bytes(Vec::from_slice(alloc, &bytes[from..to])?))
}

// The index that an argument is.
fn index_of(index: &Term) -> Result<usize, FaultKind>
    ensures { result ≡ index_seen (seen index.now) }
{
    let Some(index) = int_of(index) else {
        return Err(FaultKind::WrongType);
    };
    if index < 0 {
        return Err(FaultKind::Index);
    }
    Ok(index as usize)
}

// The byte of the index that an argument is.
fn byte_at(bytes: &[u8], index: &Term) -> Result<Ground, OpStop>
    ensures { AnswersGround (nth_at (λ b. of_int (pos b)) bytes.now (seen index.now)) result }
{
    let index = index_of(index)?;
    match bytes.get(index) {
        Some(byte) => Ok(Ground::Int(i64::from(*byte))),
        None => Err(OpStop::Fault(FaultKind::Index)),
    }
}

// The bytes that a text of digits spells.
fn read_hex(alloc: Global, text: &str) -> Result<Ground, OpStop>
    ensures { AnswersGround (hex_answer (from_hex text.now)) result }
{
    match hex::decode(alloc, text.as_bytes()) {
        Ok(bytes) => Ok(Ground::Bytes(bytes)),
        Err(error) => Err(stop_of(error)),
    }
}

// Two digits for each byte, in lower case.
fn write_hex(alloc: Global, bytes: &[u8]) -> Result<Ground, OpStop>
    ensures { AnswersGround (gives (of_text (to_hex bytes.now))) result }
{
    Ok(Ground::Str(hex::encode(alloc, bytes)?))
}

fn stop_of(error: FromHexError) -> OpStop
    ensures { result ≡ hex_stop error }
{
    match error {
        FromHexError::OutOfMemory => OpStop::NoMemory,
        _ => OpStop::Fault(FaultKind::WrongType),
    }
}
