// The tree of the groups of rows.
ghost use Rattle.std.specs.Prelude.{◌≡◌, ◌⊎◌, ◌≤◌, ◌<◌, ◌+◌, ◌-◌, ◌*◌, ◌++◌, ◌∷◌, [], List, length, map, IfOk, OnOk};
ghost use Rattle.std.specs.Str.{bytes_eq};
ghost use Rattle.calculus.specs.Rows.{row_code as code_of_row, Row as AnyRow};
ghost use Rattle.radix_root.specs.Leaves.{codes_at, groups_of, Keeps};
ghost use Rattle.checkpoint.specs.Groups.{row_of, AreApart, AreByKey, Give, Holds, IsKeyed};
ghost use Rattle.checkpoint.specs.Made.{AreMade, no_codes};
ghost use Rattle.checkpoint.specs.Marks.{AreMarks};

use crate::keyed::{KeyedRow, rows_by_key};
use crate::marks::{Mark, marks_of};
use calculus::{Digest, Steps};
use radix_root::{Group, RadixTree, slices_of};
use space_row::{Row, row_code};
use std::alloc::{AllocError, Global};
use std::marker::Brand;
use std::sync::ledger::{Blank, Ledger};

// Groups of rows, one after another: all but the last of them are closed, and of the last stand the key and the codes.
#[derive(Drop)]
pub(crate) struct Groups<'a> {
    pub(crate) closed: Vec<Group>,
    pub(crate) key: Digest,
    pub(crate) codes: Vec<&'a [u8]>,
}

impl<'a> Groups<'a> {
    // Adds a row of the last group, or of a group that has no rows so far.
    fn add<L: Ledger>(
        &mut self,
        keyed: &KeyedRow<'a>,
        steps: &mut Steps<L>,
    ) -> Result<(), AllocError>
        requires { IsKeyed keyed.now }
        ensures key { OnOk result (self.new.key.0 ≡ keyed.now.key.now.0) }
        ensures holds { OnOk result ((rows : List AnyRow) → Holds self.old rows →
            (keyed.now.key.now.0 ≡ self.old.key.0) ⊎ (codes_at rows keyed.now.key.now.0 ≡ []) →
            Holds self.new (rows ++ row_of keyed.now ∷ [])) }
        ensures counted { OnOk result (steps.new + length self.old.closed.items ≤ steps.old + length self.new.closed.items) }
    {
        self.turn(keyed.key, steps)?;
        self.codes.push(keyed.code)?;
        Ok(())
    }

    // Makes the group of a key the last one, where that has no rows so far or is the last one.
    fn turn<L: Ledger>(&mut self, key: &Digest, steps: &mut Steps<L>) -> Result<(), AllocError>
        ensures key { OnOk result (self.new.key.0 ≡ key.now.0) }
        ensures holds { OnOk result ((rows : List AnyRow) → Holds self.old rows → (key.now.0 ≡ self.old.key.0) ⊎
            (codes_at rows key.now.0 ≡ []) → Holds self.new rows) }
        ensures counted { OnOk result (steps.new + length self.old.closed.items ≤ steps.old + length self.new.closed.items) }
    {
        if are_equal(key, &self.key) {
            return Ok(());
        }
        self.close(steps)?;
        self.key = *key;
        Ok(())
    }

    // Closes the last group, where it has rows. Its digest is one more step, and it is one more closed group.
    fn close<L: Ledger>(&mut self, steps: &mut Steps<L>) -> Result<(), AllocError>
        ensures closed { OnOk result ((rows : List AnyRow) → Holds self.old rows → Give self.new.closed.items (groups_of rows)) }
        ensures apart { OnOk result ((rows : List AnyRow) → Holds self.old rows → AreApart self.new.closed.items rows) }
        ensures codes { OnOk result (self.new.codes.items ≡ []) }
        ensures counted { OnOk result (steps.new + length self.old.closed.items ≤ steps.old + length self.new.closed.items) }
    {
        if self.codes.is_empty() {
            return Ok(());
        }
        self.codes.sort_by(|a, b| a.cmp(b))?;
        let group = Group::of(&self.key, self.codes.as_slice(), steps);
        self.closed.push(group)?;
        self.codes.clear();
        Ok(())
    }
}

// Whether two keys are equal.
fn are_equal(a: &Digest, b: &Digest) -> bool
    ensures { result ≡ bytes_eq a.now.0 b.now.0 }
{
    *a == *b
}

/// The tree of the groups of these rows. Want of memory is the one error.
pub fn tree_of(alloc: Global, rows: &[Row]) -> Result<RadixTree, AllocError>
    ensures { IfOk result (λ t. Keeps t (groups_of rows.now)) }
{
    let (tree, _marks) = marked_tree(alloc, rows)?;
    Ok(tree)
}

/// The tree of the groups of these rows, and the marks of these. Want of memory is the one error.
pub fn marked_tree(alloc: Global, rows: &[Row]) -> Result<(RadixTree, Vec<Mark>), AllocError>
    ensures tree { IfOk result (λ p. Keeps p.0 (groups_of rows.now)) }
    ensures marks { IfOk result (λ p. AreMarks p.1.items rows.now) }
{
    let codes = codes_of_rows(alloc, rows)?;
    let slices = slices_of(alloc, codes.as_slice())?;
    coded_tree(alloc, rows, slices)
}

/// The codes of these rows, as they stand.
pub(crate) fn codes_of_rows(alloc: Global, rows: &[Row]) -> Result<Vec<Vec<u8>>, AllocError>
    ensures { IfOk result (λ v. map (λ c. c.items) v.items ≡ map code_of_row rows.now) }
{
    let mut codes = Vec::with_capacity(alloc, rows.len())?;
    for row in rows {
        codes.push(row_code(alloc, row)?)?;
    }
    Ok(codes)
}

/// The tree of the groups of these rows, which have these codes, and the marks of the rows. Want of memory is the one
/// error. No row's code is made.
pub fn coded_tree(
    alloc: Global,
    rows: &[Row],
    codes: Vec<&[u8]>,
) -> Result<(RadixTree, Vec<Mark>), AllocError>
    requires { map (λ c. c.now) codes.items ≡ map code_of_row rows.now }
    ensures tree { IfOk result (λ p. Keeps p.0 (groups_of rows.now)) }
    ensures marks { IfOk result (λ p. AreMarks p.1.items rows.now) }
{
    let marks = marks_of(alloc, rows, codes.as_slice())?;
    let tree = tree_in::<Brand>(alloc, rows, codes, marks.as_slice(), Blank::new(1))?;
    Ok((tree, marks))
}

// The tree of the groups of these rows, whose codes and marks these are. Its steps are counted in this ledger.
fn tree_in<L: Ledger>(
    alloc: Global,
    rows: &[Row],
    codes: Vec<&[u8]>,
    marks: &[Mark],
    blank: Blank,
) -> Result<RadixTree, AllocError>
    requires name { blank.name ≡ L.name }
    requires parts { blank.parts ≡ L.parts }
    requires some { 0 < L.parts }
    requires codes { map (λ c. c.now) codes.items ≡ map code_of_row rows.now }
    requires marks { AreMarks marks.now rows.now }
    ensures { IfOk result (λ t. Keeps t (groups_of rows.now)) }
{
    let mut steps = Steps::<L>::new(blank);
    counted_tree(alloc, rows, codes, marks, &mut steps)
}

/// The tree of the groups of these rows, whose codes and marks these are. Each digest of a group or of a node above
/// them is one more step, and at most 65 are made for each group.
pub(crate) fn counted_tree<L: Ledger>(
    alloc: Global,
    rows: &[Row],
    codes: Vec<&[u8]>,
    marks: &[Mark],
    steps: &mut Steps<L>,
) -> Result<RadixTree, AllocError>
    requires codes { map (λ c. c.now) codes.items ≡ map code_of_row rows.now }
    requires marks { AreMarks marks.now rows.now }
    ensures tree { IfOk result (λ t. Keeps t (groups_of rows.now)) }
    ensures made { OnOk result (AreMade no_codes (groups_of rows.now) (steps.new - steps.old)) }
{
    let groups = groups_by_key(alloc, rows, codes, marks, steps)?;
    RadixTree::new(alloc).with_groups(alloc, groups.as_slice(), steps)
}

// The groups of these rows, whose codes and marks these are, in the order of their keys. The digest of each is one more
// step.
fn groups_by_key<'a, L: Ledger>(
    alloc: Global,
    rows: &'a [Row],
    codes: Vec<&'a [u8]>,
    marks: &'a [Mark],
    steps: &mut Steps<L>,
) -> Result<Vec<Group>, AllocError>
    requires codes { map (λ c. c.now) codes.items ≡ map code_of_row rows.now }
    requires marks { AreMarks marks.now rows.now }
    ensures give { IfOk result (λ v. Give v.items (groups_of rows.now)) }
    ensures apart { IfOk result (λ v. AreApart v.items rows.now) }
    ensures counted { IfOk result (λ v. steps.new ≤ steps.old + length v.items) }
{
    let keyed = rows_by_key(alloc, rows, codes, marks)?;
    grouped(alloc, keyed.as_slice(), steps)
}

// The groups of rows that stand in the order of their keys. The digest of each is one more step.
fn grouped<L: Ledger>(
    alloc: Global,
    keyed: &[KeyedRow<'_>],
    steps: &mut Steps<L>,
) -> Result<Vec<Group>, AllocError>
    requires { AreByKey keyed.now }
    ensures give { IfOk result (λ v. Give v.items (groups_of (map row_of keyed.now))) }
    ensures apart { IfOk result (λ v. AreApart v.items (map row_of keyed.now)) }
    ensures counted { IfOk result (λ v. steps.new ≤ steps.old + length v.items) }
{
    let mut groups = Groups {
        closed: Vec::with_capacity(alloc, keyed.len().saturating_add(1))?,
        key: Digest([0; 32]),
        codes: Vec::new(alloc),
    };
    for row in keyed {
        groups.add(row, steps)?;
    }
    groups.close(steps)?;
    Ok(groups.closed)
}
