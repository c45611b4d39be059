// What stands in codes beside processes: bytes, flags, numbers, texts and variables.
ghost use Rattle.std.specs.Prelude.{◌≡◌, ◌++◌, ◌∷◌, ◌≤◌, ◌<◌, ◌^◌, ◌+◌, ℕ, List, length, true, false, IfOk, IfErr, take, ◌-◌, [], OnOk};
ghost use Rattle.calculus.specs.Bytes.{be32};
ghost use Rattle.calculus.specs.Order.{up_to};
ghost use Rattle.calculus.specs.Form.{IsBytes};
ghost use Rattle.code_faults.specs.Beginning.{HasPlace, IsAt, Goes, Cuts, BegunNumber, Follows};
ghost use Rattle.code_faults.specs.Refusing.{Denies, RefusesByte, RefusesNumber};
ghost use Rattle.code_faults.specs.Tags.{is_form_tag};
ghost use Rattle.code_faults.specs.Places.{Reaches};
ghost use Rattle.code_faults.specs.Blaming.{IsShallow, TellsNone, Wrong, InByte, InNumber};
ghost use Rattle.code_faults.specs.declared.fault.ReadFault.TheVariants.{NotCanonical};

use code_faults::ReadFault;
use rho_term::with_room;
use std::alloc::Global;
use std::cmp::Ordering;

/// For how many items a list has room before the first is read: a code may tell any number, and then end.
const FIRST_ROOM: u32 = 16;

/// A reader of codes: the bytes that are left, and how many there were. A wrong byte's place is told by how
/// many bytes stand from there on.
#[derive(Drop)]
pub struct Reader<'a> {
    pub alloc: Global,
    /// The bytes that are left.
    pub input: &'a [u8],
    /// How many there were.
    pub whole: usize,
}

impl<'a> Reader<'a> {
    /// A list without items, with room for so many, but for 16 at most.
    pub fn list<T>(&self, count: u32) -> Vec<T>
        ensures { result.items ≡ [] }
    {
        with_room(self.alloc, count.min(FIRST_ROOM) as usize)
    }

    /// The place of the next byte.
    pub fn place(&self) -> usize
        ensures { result ≡ length self.now.input.now }
    {
        self.input.len()
    }

    /// The place of the byte before the next one.
    pub fn last_place(&self) -> usize
        ensures { result ≡ length self.now.input.now + 1 }
    {
        self.input.len() + 1
    }

    /// The next byte.
    pub fn byte(&mut self) -> Result<u8, ReadFault>
        ensures is { IfOk result (λ b. self.old.input.now ≡ b ∷ self.new.input.now) }
        ensures tells { IfErr result (λ e. TellsNone e) }
        ensures refuses { IfErr result (λ e. (c : List ℕ) → 0 < length c → Denies e self.old.input.now c) }
        ensures place { IfErr result (λ e. IsAt e self.old.input.now) }
    {
        match self.input {
            [first, others @ ..] => {
                self.input = others;
                Ok(*first)
            }
            [] => Err(ReadFault::Short { at: self.whole }),
        }
    }

    // The next n bytes.
    pub(crate) fn take(&mut self, n: usize) -> Result<&'a [u8], ReadFault>
        ensures is { IfOk result (λ s. self.old.input.now ≡ s.now ++ self.new.input.now) }
        ensures long { IfOk result (λ s. length s.now ≡ n) }
        ensures bytes { IfOk result (λ s. IsBytes s.now) }
        ensures tells { IfErr result (λ e. TellsNone e) }
        ensures refuses { IfErr result (λ e. (c : List ℕ) → length c ≡ n → Denies e self.old.input.now c) }
        ensures place { IfErr result (λ e. IsAt e []) }
        ensures ends { IfErr result (λ e. length self.old.input.now < n) }
        ensures left { IfErr result (λ e. IsBytes self.old.input.now) }
    {
        let taken = front(self.input, n.min(self.input.len()));
        if taken.len() < n {
            return Err(ReadFault::Short { at: self.whole });
        }
        self.input = &self.input[n..];
        Ok(taken)
    }

    /// The code that was read since these bytes were left, which is no less than the one before it.
    pub fn read_since(&self, start: &'a [u8], last: &[u8]) -> Result<&'a [u8], ReadFault>
        ensures code { IfOk result (λ c. (d : List ℕ) → start.now ≡ d ++ self.now.input.now → c.now ≡ d) }
        ensures up { IfOk result (λ c. up_to last.now c.now ≡ true) }
        ensures place { IfErr result (λ e. e ≡ NotCanonical (length start.now)) }
        ensures down { IfErr result (λ e. (d : List ℕ) → start.now ≡ d ++ self.now.input.now → up_to last.now d ≡ true → ⊥) }
    {
        let code = &start[..start.len().saturating_sub(self.input.len())];
        if last.cmp(code) == Ordering::Greater {
            return Err(ReadFault::NotCanonical { at: start.len() });
        }
        Ok(code)
    }

    // A byte of at most this number.
    pub(crate) fn flag(&mut self, most: u8) -> Result<u8, ReadFault>
        ensures is { IfOk result (λ b. self.old.input.now ≡ b ∷ self.new.input.now) }
        ensures few { IfOk result (λ b. b ≤ most) }
        ensures wrong { IfErr result (λ e. Wrong (InByte most) e self.old.input.now) }
        ensures refuses { IfErr result (λ e. RefusesByte most e self.old.input.now) }
        ensures place { IfErr result (λ e. IsAt e self.old.input.now) }
    {
        let at = self.place();
        let byte = self.byte()?;
        if byte > most {
            return Err(ReadFault::NotCanonical { at });
        }
        Ok(byte)
    }

    /// A number from `least` to `most`. Where it is cut, its bytes begin that of some such number; where they
    /// do not, its first byte is blamed.
    pub fn number(&mut self, least: u32, most: u32) -> Result<u32, ReadFault>
        ensures is { IfOk result (λ n. self.old.input.now ≡ be32 n ++ self.new.input.now) }
        ensures least { IfOk result (λ n. least ≤ n) }
        ensures most { IfOk result (λ n. n ≤ most) }
        ensures place { IfErr result (λ e. IsShallow e (length self.old.input.now)) }
        ensures wrong { IfErr result (λ e. Wrong (InNumber least most) e self.old.input.now) }
        ensures refuses { IfErr result (λ e. RefusesNumber least most e self.old.input.now) }
        ensures ends { least ≡ 0 → most ≡ 0xFFFFFFFF → IfErr result (λ e. length self.old.input.now < 4) }
        ensures begun { IfErr result (λ e. HasPlace e → least ≤ most → Goes e (BegunNumber least most self.old.input.now)) }
    {
        let at = self.place();
        let (low, high) = number_bounds(self.input);
        if low > most || high < least {
            return Err(ReadFault::NotCanonical { at });
        }
        match self.input {
            [a, b, c, d, others @ ..] => {
                let n = u32::from_be_bytes([*a, *b, *c, *d]);
                if n < least || most < n {
                    return Err(ReadFault::NotCanonical { at });
                }
                self.input = others;
                Ok(n)
            }
            _ => Err(ReadFault::Short { at: self.whole }),
        }
    }
}

/// Bytes that fall below the code before them are no code there, whatever follows the byte that does. Else
/// bytes may follow so that they do not.
pub fn check_order(last: &[u8], bytes: &[u8]) -> Result<(), ReadFault>
    ensures up { IfOk result (λ _. Reaches last.now bytes.now) }
    ensures follows { OnOk result (Follows last.now bytes.now) }
    ensures place { IfErr result (λ e. e ≡ NotCanonical (length bytes.now)) }
    ensures refuses { IfErr result (λ e. (c : List ℕ) → up_to last.now c ≡ true → Denies e bytes.now c) }
{
    let both = last.len().min(bytes.len());
    if front(last, both).cmp(front(bytes, both)) == Ordering::Greater {
        return Err(ReadFault::NotCanonical { at: bytes.len() });
    }
    Ok(())
}

/// Whether the byte is the tag of a part of a process that is no leaf.
pub fn is_form(tag: u8) -> bool
    ensures { result ≡ is_form_tag tag }
{
    matches!(tag, 0x20..=0x23 | 0x30..=0x34 | 0x40..=0x42)
}

/// Whether a form, if there is one, has no room.
pub fn lacks_room(room: u32, form: bool) -> bool
    ensures yes { result ≡ true → (room ≡ 0) × (form ≡ true) }
    ensures no { result ≡ false → room ≡ 0 → form ≡ false }
{
    room == 0 && form
}

fn front(bytes: &[u8], n: usize) -> &[u8]
    requires { n ≤ length bytes.now }
    ensures is { result.now ≡ take n bytes.now }
    ensures bytes { IsBytes result.now }
{
    &bytes[..n]
}

// The least and the greatest number whose four bytes begin with these, or are the first four.
pub(crate) fn number_bounds(bytes: &[u8]) -> (u32, u32)
    ensures all { (n : ℕ) (x y : List ℕ) → n < 2 ^ 32 → bytes.now ++ x ≡ be32 n ++ y → (result.0 ≤ n) × (n ≤ result.1) }
    ensures only { (n : ℕ) → length bytes.now < 4 → n < 2 ^ 32 → result.0 ≤ n → n ≤ result.1 → Cuts bytes.now (be32 n) [] }
    ensures order { result.0 ≤ result.1 }
{
    match bytes {
        [] => (0, u32::MAX),
        [a] => (
            u32::from_be_bytes([*a, 0, 0, 0]),
            u32::from_be_bytes([*a, 255, 255, 255]),
        ),
        [a, b] => (
            u32::from_be_bytes([*a, *b, 0, 0]),
            u32::from_be_bytes([*a, *b, 255, 255]),
        ),
        [a, b, c] => (
            u32::from_be_bytes([*a, *b, *c, 0]),
            u32::from_be_bytes([*a, *b, *c, 255]),
        ),
        [a, b, c, d, ..] => {
            let n = u32::from_be_bytes([*a, *b, *c, *d]);
            (n, n)
        }
    }
}
