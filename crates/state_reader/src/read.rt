// Reading of the text of a state.
ghost use Rattle.std.specs.Prelude.{◌≡◌, ◌<◌, ◌≤◌, ◌+◌, ◌++◌, ◌∷◌, ◌^◌, [], drop, take, true, false, length, List, ℕ, map, not, IfOk, IfErr, OnOk};
ghost use Rattle.calculus.specs.Bytes.{joined};
ghost use Rattle.calculus.specs.Order.{up_to};
ghost use Rattle.calculus.specs.Steps.{is_one_of};
ghost use Rattle.calculus.specs.Storing.{IsStorable};
ghost use Rattle.calculus.specs.Rows.{row_code as code_of_row};
ghost use Rattle.input_faults.specs.declared.state_fault.StateFault.TheVariants.{Short, NotCanonical};
ghost use Rattle.state_reader.specs.Files.{IsNoNextRow};
ghost use Rattle.checkpoint.specs.Kept.{AreInOrder};
ghost use Rattle.state_reader.specs.Reading.{Adds, AreCut, AreIds, AreWrong, IsCutThere, IsInHand, IsMisplaced, IsOfRows};

use crate::front::read_front;
use calculus::Digest;
use input_faults::StateFault;
use rho_term::with_room;
use row_reader::RowFault;
use space_row::Row;
use std::alloc::{AllocError, Global};
use std::cmp::Ordering;
use std::collections::BTreeSet;

/// No row's code has fewer bytes: a first byte, an id, a channel without parts, a flag and the number of arguments.
const LEAST_LENGTH: usize = 42;

// Rows that were read, their codes and ids, and the code of the last one.
#[derive(Drop)]
pub(crate) struct RowsRead<'a> {
    pub(crate) rows: Vec<Row>,
    pub(crate) codes: Vec<&'a [u8]>,
    pub(crate) ids: BTreeSet<[u8; 32]>,
    pub(crate) last: &'a [u8],
}

impl<'a> RowsRead<'a> {
    // Adds a row with this code, and says whether it may stand after the others.
    fn add(&mut self, row: Row, code: &'a [u8]) -> Result<bool, AllocError>
        requires hand { IsInHand self.old }
        requires code { code.now ≡ code_of_row row }
        requires storable { IsStorable row }
        ensures yes { IfOk result (λ b. b ≡ true → IsInHand self.new × (self.new.rows.items ≡ self.old.rows.items ++ row ∷ [])) }
        ensures no { IfOk result (λ b. b ≡ false → AreInOrder (self.old.rows.items ++ row ∷ []) → ⊥) }
    {
        if !may_follow(self.last, code) {
            return Ok(false);
        }
        if !add_id(&mut self.ids, &row.id())? {
            return Ok(false);
        }
        self.rows.push(row)?;
        self.codes.push(code)?;
        self.last = code;
        Ok(true)
    }

    // Takes the row at the front of what is left of a text of `whole` bytes.
    fn take_row(
        &mut self,
        alloc: Global,
        whole: usize,
        left: &'a [u8],
    ) -> Result<&'a [u8], StateFault>
        requires { IsInHand self.old }
        ensures hand { IfOk result (λ others. IsInHand self.new) }
        ensures adds { IfOk result (λ others. Adds self.old.rows.items self.new.rows.items left.now others.now) }
        ensures tells { IfErr result (λ e. IsOfRows e) }
        ensures cut { (at : ℕ) → result ≡ Err (Short at) → (at ≡ whole) × IsCutThere left.now }
        ensures wrong { (at : ℕ) → result ≡ Err (NotCanonical at) → length left.now < 2 ^ 32 → length left.now ≤ whole →
            (at + length left.now ≡ whole) × IsNoNextRow self.old.rows.items left.now }
    {
        let at = whole.saturating_sub(left.len());
        match read_front(alloc, left) {
            Ok((row, len)) => self.place(row, len, left, at),
            Err(RowFault::Cut) => Err(StateFault::Short { at: whole }),
            Err(RowFault::Wrong) => Err(StateFault::NotCanonical { at }),
            Err(RowFault::NoMemory) => Err(StateFault::NoMemory),
        }
    }

    // Adds the row at the front of what is left from this place on, whose code has this length.
    fn place(
        &mut self,
        row: Row,
        len: usize,
        left: &'a [u8],
        at: usize,
    ) -> Result<&'a [u8], StateFault>
        requires hand { IsInHand self.old }
        requires storable { IsStorable row }
        requires row { left.now ≡ code_of_row row ++ drop len left.now }
        requires length { len ≡ length (code_of_row row) }
        ensures hand { IfOk result (λ others. IsInHand self.new) }
        ensures adds { IfOk result (λ others. Adds self.old.rows.items self.new.rows.items left.now others.now) }
        ensures tells { IfErr result (λ e. IsMisplaced at e) }
        ensures wrong { IfErr result (λ e. (e ≡ NotCanonical at) → IsNoNextRow self.old.rows.items left.now) }
    {
        let code = front_of(left, len);
        if !self.add(row, code)? {
            return Err(StateFault::NotCanonical { at });
        }
        Ok(rest_of(left, len))
    }
}

// So many of these bytes.
pub(crate) fn front_of(bytes: &[u8], len: usize) -> &[u8]
    requires { len ≤ length bytes.now }
    ensures { result.now ≡ take len bytes.now }
{
    &bytes[..len]
}

// These bytes but for so many.
pub(crate) fn rest_of(bytes: &[u8], len: usize) -> &[u8]
    requires { len ≤ length bytes.now }
    ensures { result.now ≡ drop len bytes.now }
{
    &bytes[len..]
}

// Whether a code is no less than the one before it.
fn may_follow(last: &[u8], code: &[u8]) -> bool
    ensures { result ≡ up_to last.now code.now }
{
    last.cmp(code) != Ordering::Greater
}

// Adds an id, and says whether it is new.
fn add_id(ids: &mut BTreeSet<[u8; 32]>, id: &Digest) -> Result<bool, AllocError>
    ensures new { (xs : List (List ℕ)) → AreIds ids.old xs → IfOk result (λ b. b ≡ not (is_one_of id.now.0 xs)) }
    ensures ids { OnOk result ((xs : List (List ℕ)) → AreIds ids.old xs → AreIds ids.new (xs ++ id.now.0 ∷ [])) }
{
    let new = ids.insert(id.0)?;
    Ok(new)
}

// A list with an item for each of so many rows to come, with room for those that these bytes may have.
fn list_for_rows<T>(alloc: Global, number: u64, bytes: &[u8]) -> Vec<T>
    ensures { result.items ≡ [] }
{
    let most = bytes.len() / LEAST_LENGTH;
    with_room(alloc, number.min(most as u64) as usize)
}

// So many rows at the front of what follows the header in a text of `whole` bytes, their codes, and what is left.
pub(crate) fn take_rows<'a>(
    alloc: Global,
    whole: usize,
    bytes: &'a [u8],
    number: u64,
) -> Result<(Vec<Row>, Vec<&'a [u8]>, &'a [u8]), StateFault>
    ensures order { IfOk result (λ p. AreInOrder p.0.items) }
    ensures number { IfOk result (λ p. length p.0.items ≡ number) }
    ensures codes { IfOk result (λ p. map (λ c. c.now) p.1.items ≡ map code_of_row p.0.items) }
    ensures is { IfOk result (λ p. bytes.now ≡ joined (map code_of_row p.0.items) ++ p.2.now) }
    ensures tells { IfErr result (λ e. IsOfRows e) }
    ensures cut { (at : ℕ) → result ≡ Err (Short at) → (at ≡ whole) × AreCut number bytes.now }
    ensures wrong { (at : ℕ) → result ≡ Err (NotCanonical at) → length bytes.now < 2 ^ 32 → length bytes.now ≤ whole →
        AreWrong whole at number bytes.now }
{
    let mut read = RowsRead {
        rows: list_for_rows(alloc, number, bytes),
        codes: list_for_rows(alloc, number, bytes),
        ids: BTreeSet::new(alloc),
        last: &[],
    };
    let mut left = bytes;
    for _i in 0..number {
        match read.take_row(alloc, whole, left) {
            Ok(others) => left = others,
            Err(fault) => return Err(fault),
        }
    }
    Ok((read.rows, read.codes, left))
}
