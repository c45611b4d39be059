// The header of the text of a state: its name and version, its root, and its number of rows.
ghost use Rattle.std.specs.Prelude.{◌≡◌, ◌++◌, ◌<◌, ◌^◌, length, min, take, ℕ, IfOk, IfErr};
ghost use Rattle.calculus.specs.Bytes.{be64};
ghost use Rattle.input_faults.specs.declared.state_fault.StateFault.TheVariants.{NotCanonical, Short};
ghost use Rattle.state_reader.specs.Files.{heading, IsCutHeader, IsWrongHeading};
ghost use Rattle.state_reader.specs.Reading.{IsOfRows};

use crate::read::{front_of, rest_of};
use calculus::Digest;
use input_faults::StateFault;
use rho_lanes::first_difference;

/// What the text of each state begins with: its name and its version.
const HEADING: &[u8] = b"RHOSTATE\x01";

// How many bytes the root and the number of rows have.
const AFTER_HEADING: usize = 40;

// What follows the name and the version.
fn take_heading(bytes: &[u8]) -> Result<&[u8], StateFault>
    ensures is { IfOk result (λ left. bytes.now ≡ heading ++ left.now) }
    ensures tells { IfErr result (λ e. IsOfRows e) }
    ensures cut { (at : ℕ) → result ≡ Err (Short at) → (at ≡ length bytes.now) × IsCutHeader bytes.now }
    ensures wrong { (at : ℕ) → result ≡ Err (NotCanonical at) → IsWrongHeading at bytes.now }
{
    let len = bytes.len().min(HEADING.len());
    match first_difference(front_of(bytes, len), front_of(HEADING, len)) {
        Some(at) => Err(StateFault::NotCanonical { at }),
        None => after_heading(bytes, len),
    }
}

// What follows the heading, of which these bytes have so many, and no more where they end.
fn after_heading(bytes: &[u8], len: usize) -> Result<&[u8], StateFault>
    requires len { len ≡ min (length bytes.now) 9 }
    requires same { take len bytes.now ≡ take len heading }
    ensures is { IfOk result (λ left. bytes.now ≡ heading ++ left.now) }
    ensures cut { IfErr result (λ e. (e ≡ Short (length bytes.now)) × IsCutHeader bytes.now) }
{
    if len < HEADING.len() {
        return Err(StateFault::Short { at: bytes.len() });
    }
    Ok(rest_of(bytes, len))
}

/// The root and the number of rows that a text tells, and what follows them.
pub(crate) fn take_header(bytes: &[u8]) -> Result<(Digest, u64, &[u8]), StateFault>
    ensures is { IfOk result (λ p. bytes.now ≡ heading ++ (p.0.0 ++ (be64 p.1 ++ p.2.now))) }
    ensures long { IfOk result (λ p. length p.0.0 ≡ 32) }
    ensures small { IfOk result (λ p. p.1 < 2 ^ 64) }
    ensures tells { IfErr result (λ e. IsOfRows e) }
    ensures cut { (at : ℕ) → result ≡ Err (Short at) → (at ≡ length bytes.now) × IsCutHeader bytes.now }
    ensures wrong { (at : ℕ) → result ≡ Err (NotCanonical at) → IsWrongHeading at bytes.now }
{
    let left = match take_heading(bytes) {
        Ok(left) => left,
        Err(fault) => return Err(fault),
    };
    if left.len() < AFTER_HEADING {
        return Err(StateFault::Short { at: bytes.len() });
    }
    let root = root_of(front_of(left, 32));
    let others = rest_of(left, 32);
    let number = number_of(front_of(others, 8));
    Ok((root, number, rest_of(others, 8)))
}

// These 32 bytes as a digest.
fn root_of(bytes: &[u8]) -> Digest
    requires { length bytes.now ≡ 32 }
    ensures { result.0 ≡ bytes.now }
{
    let mut array = [0; 32];
    array.copy_from_slice(bytes);
    Digest(array)
}

// These eight bytes as a number, the high one first.
fn number_of(bytes: &[u8]) -> u64
    requires { length bytes.now ≡ 8 }
    ensures { bytes.now ≡ be64 result }
{
    let mut array = [0; 8];
    array.copy_from_slice(bytes);
    u64::from_be_bytes(array)
}
