ghost use Rattle.std.specs.Prelude.{◌≡◌, ◌+◌, ◌*◌, ◌≤◌, drop, length, take, true};
ghost use Rattle.rho_lanes.specs.Differences.{IsFirstDifference};

use std::simd::prelude::*;

// How many bytes are compared in one step.
const LANES: usize = 16;

// A bit for each of them.
const ALL_LANES: u64 = 0xFFFF;

/// The first place where two lists of bytes differ or the shorter one ends, and None where they are equal.
pub fn first_difference(a: &[u8], b: &[u8]) -> Option<usize>
    ensures { IsFirstDifference a.now b.now result }
{
    let start = equal_steps(a, b) * LANES;
    let shorter = a.len().min(b.len());
    for i in start..shorter {
        if a[i] != b[i] {
            return Some(i);
        }
    }
    if a.len() == b.len() {
        return None;
    }
    Some(shorter)
}

// In how many steps from the first byte on the lists are equal.
fn equal_steps(a: &[u8], b: &[u8]) -> usize
    ensures a { result * LANES ≤ length a.now }
    ensures b { result * LANES ≤ length b.now }
    ensures equal { take (result * LANES) a.now ≡ take (result * LANES) b.now }
{
    let steps = a.len().min(b.len()) / LANES;
    for step in 0..steps {
        if !are_equal_lanes(a, b, step * LANES) {
            return step;
        }
    }
    steps
}

// Whether the lists are equal in the step that begins at a place.
fn are_equal_lanes(a: &[u8], b: &[u8], at: usize) -> bool
    requires a { at + LANES ≤ length a.now }
    requires b { at + LANES ≤ length b.now }
    ensures { result ≡ true → take LANES (drop at a.now) ≡ take LANES (drop at b.now) }
{
    let left = u8x16::from_slice(&a[at..]);
    let right = u8x16::from_slice(&b[at..]);
    left.simd_eq(right).to_bitmask() == ALL_LANES
}
