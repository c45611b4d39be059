// The fixed words of printed text, numbers and texts.
ghost use Rattle.std.specs.Prelude.{◌≡◌, ◌++◌, ◌∷◌, [], ◌≤◌, ◌<◌, ◌+◌, ◌-◌, cond, eqb, ltb, codes, flat_map, length, string_bytes, IfOk, OnOk};
ghost use Rattle.calculus.specs.Printed.{int_text, variable_text, escaped};
ghost use Rattle.calculus.specs.Texts.{to_hex};
ghost use Rattle.calculus.specs.Shape.{leaf};
ghost use Rattle.calculus.specs.Tree.{rest};
ghost use Rattle.calculus.specs.Variables.{bound};
ghost use Rattle.printed_leaves.specs.Words.{before, remainder};

use calculus::{Digest, TermRest};
use std::alloc::AllocError;

/// These bytes, at the end of a text.
pub fn put(out: &mut Vec<u8>, bytes: &[u8]) -> Result<(), AllocError>
    ensures text { OnOk result (out.new.items ≡ out.old.items ++ bytes.now) }
    ensures grows { OnOk result (length out.old.items ≤ length out.new.items) }
{
    out.extend_from_slice(bytes)?;
    Ok(())
}

/// A mark before text number `index` of a list, unless it is the first.
pub fn separate(out: &mut Vec<u8>, index: usize, mark: &[u8]) -> Result<(), AllocError>
    ensures text { OnOk result (out.new.items ≡ out.old.items ++ before index mark.now) }
    ensures grows { OnOk result (length out.old.items ≤ length out.new.items) }
{
    if index == 0 {
        return Ok(());
    }
    put(out, mark)
}

/// A space, if more was written since the text had this length.
pub fn put_space_since(out: &mut Vec<u8>, start: usize) -> Result<(), AllocError>
    ensures text { OnOk result (out.new.items ≡ out.old.items ++ cond (ltb start (length out.old.items)) (codes " ") []) }
    ensures grows { OnOk result (length out.old.items ≤ length out.new.items) }
{
    if start < out.len() {
        return put(out, b" ");
    }
    Ok(())
}

/// The number of the variable with this index: it counts the variables in scope before it.
pub fn number_of(depth: usize, index: u32) -> usize
    ensures { result ≡ depth - (index + 1) }
{
    depth.saturating_sub(index as usize + 1)
}

/// The variable of this number.
pub fn put_variable(out: &mut Vec<u8>, number: usize) -> Result<(), AllocError>
    ensures text { OnOk result (out.new.items ≡ out.old.items ++ variable_text number) }
    ensures grows { OnOk result (length out.old.items < length out.new.items) }
{
    let mut buffer = itoa::Buffer::new();
    out.push(b'v')?;
    put(out, buffer.format(number).as_bytes())
}

/// A number in decimal.
pub fn put_int(out: &mut Vec<u8>, value: i64) -> Result<(), AllocError>
    ensures text { OnOk result (out.new.items ≡ out.old.items ++ int_text value) }
    ensures grows { OnOk result (length out.old.items ≤ length out.new.items) }
{
    let mut buffer = itoa::Buffer::new();
    put(out, buffer.format(value).as_bytes())
}

/// Two lower case digits for each byte.
pub fn put_hex(out: &mut Vec<u8>, bytes: &[u8]) -> Result<(), AllocError>
    ensures text { OnOk result (out.new.items ≡ out.old.items ++ to_hex bytes.now) }
    ensures grows { OnOk result (length out.old.items ≤ length out.new.items) }
{
    let digits = hex::encode(*out.allocator(), bytes)?;
    put(out, digits.as_bytes())
}

/// A fresh name.
pub fn put_fresh(out: &mut Vec<u8>, name: &Digest) -> Result<(), AllocError>
    ensures text { OnOk result (out.new.items ≡ out.old.items ++ (codes "$" ++ to_hex name.now.0)) }
    ensures grows { OnOk result (length out.old.items ≤ length out.new.items) }
{
    put(out, b"$")?;
    put_hex(out, &name.0)
}

/// A string in quotes, with its escapes.
pub fn put_str(out: &mut Vec<u8>, text: &[u8]) -> Result<(), AllocError>
    ensures text { OnOk result (out.new.items ≡ out.old.items ++ (codes "\"" ++ (flat_map escaped text.now ++ codes "\""))) }
    ensures grows { OnOk result (length out.old.items ≤ length out.new.items) }
{
    put(out, b"\"")?;
    put_escaped(out, text)?;
    put(out, b"\"")
}

fn put_escaped(out: &mut Vec<u8>, text: &[u8]) -> Result<(), AllocError>
    ensures text { OnOk result (out.new.items ≡ out.old.items ++ flat_map escaped text.now) }
    ensures grows { OnOk result (length out.old.items ≤ length out.new.items) }
{
    for byte in text {
        put_byte(out, *byte)?;
    }
    Ok(())
}

fn put_byte(out: &mut Vec<u8>, byte: u8) -> Result<(), AllocError>
    ensures text { OnOk result (out.new.items ≡ out.old.items ++ escaped byte) }
    ensures grows { OnOk result (length out.old.items ≤ length out.new.items) }
{
    match byte {
        b'"' => put(out, b"\\\""),
        b'\\' => put(out, b"\\\\"),
        b'\n' => put(out, b"\\n"),
        b'\t' => put(out, b"\\t"),
        _ => {
            out.push(byte)?;
            Ok(())
        }
    }
}

/// A URI between its marks.
pub fn put_uri(out: &mut Vec<u8>, text: &[u8]) -> Result<(), AllocError>
    ensures text { OnOk result (out.new.items ≡ out.old.items ++ (codes "`" ++ (text.now ++ codes "`"))) }
    ensures grows { OnOk result (length out.old.items ≤ length out.new.items) }
{
    put(out, b"`")?;
    put(out, text)?;
    put(out, b"`")
}

/// A remainder after `index` members, and the next number after it.
pub fn put_rest(
    out: &mut Vec<u8>,
    index: usize,
    mark: &[u8],
    dots: &[u8],
    ending: TermRest,
    next: usize,
) -> Result<usize, AllocError>
    requires { next ≤ length out.old.items }
    ensures text { OnOk result (out.new.items ≡ out.old.items ++ remainder index mark.now dots.now ending next) }
    ensures next { IfOk result (λ m. m ≡ next + length (bound (leaf (rest ending)))) }
    ensures room { IfOk result (λ m. m ≤ length out.new.items) }
    ensures grows { OnOk result (length out.old.items ≤ length out.new.items) }
{
    match ending {
        TermRest::No => Ok(next),
        TermRest::Var => {
            separate(out, index, mark)?;
            put(out, dots)?;
            put_variable(out, next)?;
            Ok(next + 1)
        }
        TermRest::Wild => {
            separate(out, index, mark)?;
            put(out, dots)?;
            put(out, b"_")?;
            Ok(next)
        }
    }
}
