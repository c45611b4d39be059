ghost use Rattle.std.specs.Prelude.{◌≡◌, ◌<◌, ◌-◌, ◌++◌, map, IfOk, OnOk};
ghost use Rattle.calculus.specs.Bytes.{be64, joined};
ghost use Rattle.calculus.specs.Order.{sorted};
ghost use Rattle.calculus.specs.Root.{root};
ghost use Rattle.calculus.specs.Rows.{row_code as code_of_row};
ghost use Rattle.radix_root.specs.Leaves.{groups_of, Keeps};
ghost use Rattle.events.specs.States.{state_text};
ghost use Rattle.checkpoint.specs.Made.{AreMade, no_codes};
ghost use Rattle.checkpoint.specs.Texts.{head_with, text_with};

use crate::checkpoint::Checkpoint;
use crate::groups::{codes_of_rows, counted_tree};
use crate::marks::marks_of;
use crate::page::Page;
use calculus::{Digest, Steps};
use radix_root::slices_of;
use space_row::Row;
use std::alloc::{AllocError, Global};
use std::marker::Brand;
use std::sync::ledger::{Blank, Ledger};

/// A state that was made: its root and its text.
#[derive(Drop)]
pub struct MadeState {
    pub root: Digest,
    pub text: Vec<u8>,
}

/// The text of a checkpoint's state. Want of memory is the one error.
pub fn write_state(alloc: Global, checkpoint: &Checkpoint) -> Result<Vec<u8>, AllocError>
    ensures { IfOk result (λ v. v.items ≡ state_text checkpoint.now) }
{
    write_text(alloc, &checkpoint.root(), checkpoint.rows())
}

// The text of a state with this root and these rows, in their order.
fn write_text(alloc: Global, root: &Digest, rows: &[Row]) -> Result<Vec<u8>, AllocError>
    ensures { IfOk result (λ v. v.items ≡ text_with root.now.0 (map code_of_row rows.now)) }
{
    let mut page = Page::headed(alloc, root, rows.len());
    for row in rows {
        page.add_row(alloc, row);
    }
    page.made()
}

/// The root of these rows, which may stand in any order, and the text of the state that holds them. Want of
/// memory is the one error.
pub fn state_of(alloc: Global, rows: Vec<Row>) -> Result<(Digest, Vec<u8>), AllocError>
    ensures root { IfOk result (λ p. p.0.0 ≡ root rows.items) }
    ensures text { IfOk result (λ p. p.1.items ≡ state_text rows.items) }
{
    let MadeState { root, text } = state_in::<Brand>(alloc, rows, Blank::new(1))?;
    Ok((root, text))
}

// The same. Its steps are counted in this ledger.
fn state_in<L: Ledger>(alloc: Global, rows: Vec<Row>, blank: Blank) -> Result<MadeState, AllocError>
    requires name { blank.name ≡ L.name }
    requires parts { blank.parts ≡ L.parts }
    requires some { 0 < L.parts }
    ensures root { IfOk result (λ s. s.root.0 ≡ root rows.items) }
    ensures text { IfOk result (λ s. s.text.items ≡ state_text rows.items) }
{
    let mut steps = Steps::<L>::new(blank);
    made_state(alloc, rows, &mut steps)
}

/// The same. Each digest of a group or of a node above them is one more step, and at most 65 are made for each group of
/// these rows.
pub fn made_state<L: Ledger>(
    alloc: Global,
    rows: Vec<Row>,
    steps: &mut Steps<L>,
) -> Result<MadeState, AllocError>
    ensures root { IfOk result (λ s. s.root.0 ≡ root rows.items) }
    ensures text { IfOk result (λ s. s.text.items ≡ state_text rows.items) }
    ensures made { OnOk result (AreMade no_codes (groups_of rows.items) (steps.new - steps.old)) }
{
    let codes = codes_of_rows(alloc, rows.as_slice())?;
    let root = root_with(alloc, rows, codes.as_slice(), steps)?;
    let text = ordered_text(alloc, &root, codes)?;
    Ok(MadeState { root, text })
}

// The root of these rows, which have these codes. The rows are let go.
fn root_with<L: Ledger>(
    alloc: Global,
    rows: Vec<Row>,
    codes: &[Vec<u8>],
    steps: &mut Steps<L>,
) -> Result<Digest, AllocError>
    requires { map (λ c. c.items) codes.now ≡ map code_of_row rows.items }
    ensures root { IfOk result (λ d. d.0 ≡ root rows.items) }
    ensures made { OnOk result (AreMade no_codes (groups_of rows.items) (steps.new - steps.old)) }
{
    let all = rows.as_slice();
    let slices = slices_of(alloc, codes)?;
    let marks = marks_of(alloc, all, slices.as_slice())?;
    let tree = counted_tree(alloc, all, slices, marks.as_slice(), steps)?;
    Ok(tree.root())
}

// The text of a state with this root and these codes, ascending.
fn ordered_text(
    alloc: Global,
    root: &Digest,
    mut codes: Vec<Vec<u8>>,
) -> Result<Vec<u8>, AllocError>
    ensures { IfOk result (λ v. v.items ≡ text_with root.now.0 (sorted (map (λ c. c.items) codes.items))) }
{
    codes.sort_by(|a, b| a.cmp(b))?;
    text_of_codes(alloc, root, codes)
}

/// The text of a state with this root and these codes, as they stand. Want of memory is the one error.
pub fn text_of_codes(
    alloc: Global,
    root: &Digest,
    codes: Vec<Vec<u8>>,
) -> Result<Vec<u8>, AllocError>
    ensures { IfOk result (λ v. v.items ≡ text_with root.now.0 (map (λ c. c.items) codes.items)) }
{
    let mut page = Page::headed(alloc, root, codes.len());
    for code in codes {
        page.add(code.as_slice());
    }
    page.made()
}
