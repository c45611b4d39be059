//! Runs of bytes of one class.
ghost use Rattle.std.specs.Prelude.{◌≡◌, ◌+◌, ◌≤◌, if◌then◌else◌, ◌==◌, ℕ, length};
ghost use Rattle.std.specs.Int.{w64, trailing_zeros};
ghost use Rattle.rho_lanes.specs.Classes.{IsLongestRun, IsRun, IsRunOf, is_in};

use std::simd::prelude::*;

// How many bytes are looked at in one step.
const LANES: usize = 16;

/// A class of bytes. `Space` is the space, the tab, the line feed and the carriage return, `Digit` the
/// ASCII digits, `Word` the ASCII letters and digits with `_` and `'`, and `Plain` each byte of ASCII
/// other than `"` and `\`.
#[derive(Clone, Copy, Debug, PartialEq, Eq)]
pub enum ByteClass {
    Space,
    Digit,
    Word,
    Plain,
}

/// The length of the longest run of bytes of the class from a place on.
pub fn class_run(bytes: &[u8], from: usize, class: ByteClass) -> usize
    requires { from ≤ length bytes.now }
    ensures longest { IsLongestRun class bytes.now from result }
    ensures only { (n : ℕ) → IsLongestRun class bytes.now from n → n ≡ result }
{
    let start = from + run_of_steps(bytes, from, class);
    for i in start..bytes.len() {
        if !is_in(bytes[i], class) {
            return i - from;
        }
    }
    bytes.len() - from
}

// Whether the byte is of the class.
fn is_in(byte: u8, class: ByteClass) -> bool
    ensures { result ≡ is_in class byte }
{
    match class {
        ByteClass::Space => byte == b' ' || byte == b'\t' || byte == b'\n' || byte == b'\r',
        ByteClass::Digit => byte.is_ascii_digit(),
        ByteClass::Word => byte.is_ascii_alphanumeric() || byte == b'_' || byte == b'\'',
        ByteClass::Plain => byte.is_ascii() && byte != b'"' && byte != b'\\',
    }
}

// A run of the class from a place on: up to the first byte of another, or until fewer bytes are left
// than a step takes.
fn run_of_steps(bytes: &[u8], from: usize, class: ByteClass) -> usize
    requires { from ≤ length bytes.now }
    ensures { IsRun class bytes.now from result }
{
    let mut end = from;
    while bytes.len() - end >= LANES {
        let run = run_of_step(bytes, end, class);
        end += run;
        if run < LANES {
            return end - from;
        }
    }
    end - from
}

// How many bytes of the step at a place come before the first that is not of the class.
fn run_of_step(bytes: &[u8], at: usize, class: ByteClass) -> usize
    requires { at + LANES ≤ length bytes.now }
    ensures { IsRunOf LANES class bytes.now at result }
{
    match class {
        ByteClass::Space => space_run(bytes, at),
        ByteClass::Digit => digit_run(bytes, at),
        ByteClass::Word => word_run(bytes, at),
        ByteClass::Plain => plain_run(bytes, at),
    }
}

fn space_run(bytes: &[u8], at: usize) -> usize
    requires { at + LANES ≤ length bytes.now }
    ensures { IsRunOf LANES ByteClass.Space bytes.now at result }
{
    let lanes = u8x16::from_slice(&bytes[at..]);
    let blanks = lanes.simd_ne(u8x16::splat(b' ')) & lanes.simd_ne(u8x16::splat(b'\t'));
    let ends = lanes.simd_ne(u8x16::splat(b'\n')) & lanes.simd_ne(u8x16::splat(b'\r'));
    first_set((blanks & ends).to_bitmask())
}

fn digit_run(bytes: &[u8], at: usize) -> usize
    requires { at + LANES ≤ length bytes.now }
    ensures { IsRunOf LANES ByteClass.Digit bytes.now at result }
{
    let lanes = u8x16::from_slice(&bytes[at..]);
    let others = lanes.simd_lt(u8x16::splat(b'0')) | lanes.simd_gt(u8x16::splat(b'9'));
    first_set(others.to_bitmask())
}

fn word_run(bytes: &[u8], at: usize) -> usize
    requires { at + LANES ≤ length bytes.now }
    ensures { IsRunOf LANES ByteClass.Word bytes.now at result }
{
    let lanes = u8x16::from_slice(&bytes[at..]);
    // The bit that a small letter has above a capital one.
    let small = lanes | u8x16::splat(0x20);
    let no_letters = small.simd_lt(u8x16::splat(b'a')) | small.simd_gt(u8x16::splat(b'z'));
    let no_digits = lanes.simd_lt(u8x16::splat(b'0')) | lanes.simd_gt(u8x16::splat(b'9'));
    let no_marks = lanes.simd_ne(u8x16::splat(b'_')) & lanes.simd_ne(u8x16::splat(b'\''));
    first_set((no_letters & no_digits & no_marks).to_bitmask())
}

fn plain_run(bytes: &[u8], at: usize) -> usize
    requires { at + LANES ≤ length bytes.now }
    ensures { IsRunOf LANES ByteClass.Plain bytes.now at result }
{
    let lanes = u8x16::from_slice(&bytes[at..]);
    let marks = lanes.simd_eq(u8x16::splat(b'"')) | lanes.simd_eq(u8x16::splat(b'\\'));
    first_set((marks | lanes.simd_ge(u8x16::splat(0x80))).to_bitmask())
}

// The place of the lowest bit that is set, or the number of lanes where none is.
fn first_set(bits: u64) -> usize
    ensures { result ≡ (if bits == 0 then LANES else trailing_zeros w64 bits) }
{
    if bits == 0 {
        LANES
    } else {
        bits.trailing_zeros() as usize
    }
}
