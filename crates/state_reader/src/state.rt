// The reading of a whole state.
ghost use Rattle.std.specs.Prelude.{◌≡◌, ◌<◌, ◌^◌, [], length, List, ℕ, map, true, IfOk, IfErr, MatchOption};
ghost use Rattle.std.specs.Str.{bytes_eq};
ghost use Rattle.calculus.specs.Rows.{row_code as code_of_row};
ghost use Rattle.calculus.specs.Steps.{differ};
ghost use Rattle.events.specs.Events.{first_ids};
ghost use Rattle.events.specs.States.{state_text};
ghost use Rattle.input_faults.specs.declared.state_fault.StateFault.TheVariants.{NotCanonical, Short};
ghost use Rattle.state_reader.specs.Files.{Begins, EndsEarly, IsLeastOf, IsWrongAt};
ghost use Rattle.events.specs.Quiet.{AllowNoStep};
ghost use Rattle.state_reader.specs.Reading.{IsOfRows};
ghost use Rattle.state_reader.specs.Refused.{IsRefused};

use crate::header::take_header;
use crate::read::take_rows;
use calculus::Digest;
use checkpoint::{Checkpoint, coded_tree};
use input_faults::StateFault;
use least_step::{LeastStep, first_reducible};
use space_row::Row;
use std::alloc::{AllocError, Global};

// The least step that these rows and the built-in receivers allow, and None where they allow none.
fn least_step(alloc: Global, rows: &[Row]) -> Result<Option<LeastStep>, AllocError>
    ensures { differ (first_ids rows.now) ≡ true → IfOk result
        (λ o. MatchOption o (AllowNoStep rows.now) (λ s. IsLeastOf rows.now s.cont.0 (map (λ d. d.0) s.taken.items))) }
{
    first_reducible(alloc, rows)
}

// Whether two digests are equal.
fn are_equal(a: &Digest, b: &Digest) -> bool
    ensures { result ≡ bytes_eq a.now.0 b.now.0 }
{
    *a == *b
}

// The rows of a text, their codes, and the root that it tells. Whether that is their root and whether they allow a step is
// not looked at.
fn read_order<'a>(
    alloc: Global,
    bytes: &'a [u8],
) -> Result<(Vec<Row>, Vec<&'a [u8]>, Digest), StateFault>
    ensures is { IfOk result (λ p. Begins bytes.now p.2.0 (length p.0.items) p.0.items []) }
    ensures codes { IfOk result (λ p. map (λ c. c.now) p.1.items ≡ map code_of_row p.0.items) }
    ensures tells { IfErr result (λ e. IsOfRows e) }
    ensures short { (at : ℕ) → result ≡ Err (Short at) → (at ≡ length bytes.now) × EndsEarly bytes.now }
    ensures wrong { (at : ℕ) → result ≡ Err (NotCanonical at) → length bytes.now < 2 ^ 32 → IsWrongAt at bytes.now }
{
    let (root, number, left) = match take_header(bytes) {
        Ok(header) => header,
        Err(fault) => return Err(fault),
    };
    let (rows, codes, others) = match take_rows(alloc, bytes.len(), left, number) {
        Ok(read) => read,
        Err(fault) => return Err(fault),
    };
    if !others.is_empty() {
        let at = bytes.len().saturating_sub(others.len());
        return Err(StateFault::NotCanonical { at });
    }
    Ok((rows, codes, root))
}

/// The checkpoint of the state whose text these bytes are.
///
/// Else the first of `Short` and `NotCanonical` from the left; where there is neither, `WrongRoot`; and where
/// the root is right, `Reducible` with the least step.
pub fn read_state(alloc: Global, bytes: &[u8]) -> Result<Checkpoint, StateFault>
    ensures read { IfOk result (λ rows. bytes.now ≡ state_text rows) }
    ensures refused { IfErr result (IsRefused bytes.now) }
{
    let (rows, codes, stored) = match read_order(alloc, bytes) {
        Ok(read) => read,
        Err(fault) => return Err(fault),
    };
    let (tree, marks) = coded_tree(alloc, rows.as_slice(), codes)?;
    let found = tree.root();
    if !are_equal(&found, &stored) {
        return Err(StateFault::WrongRoot { stored, found });
    }
    match least_step(alloc, rows.as_slice())? {
        Some(step) => Err(StateFault::Reducible {
            cont: step.cont,
            taken: step.taken,
        }),
        None => Ok(Checkpoint::with_tree(rows, tree, marks)),
    }
}
