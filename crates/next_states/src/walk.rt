// A walk over the rows of a base and those of the next state, both in the order of their codes. That it finds each
// group that changes is right in any order; in this one it finds no other.
ghost use Rattle.std.specs.Prelude.{◌≡◌, [], ℕ, List, map, All, IfOk, IsPermutation};
ghost use Rattle.calculus.specs.Order.{IsAscending};
ghost use Rattle.calculus.specs.Storing.{IsStorable};
ghost use Rattle.next_states.specs.Pairs.{pair_of, seconds, IsChanged, TellsKey, cut_by};
ghost use Rattle.next_states.specs.Walks.{Covers, Has, Holds, IsCoded, Once, Passes, Takes, TakesAll, pair_in, row_of};

use crate::changed::Changed;
use crate::left::Left;
use calculus::Digest;
use checkpoint::Mark;
use space_row::{Row, row_code, row_key};
use std::alloc::{AllocError, Global};

// A row with its code.
#[derive(Drop)]
pub(crate) struct Coded<'a> {
    pub(crate) code: Vec<u8>,
    pub(crate) row: &'a Row,
}

// The code of a row with the key of its group.
#[derive(Drop)]
pub(crate) struct Keyed {
    pub(crate) key: Digest,
    pub(crate) code: Vec<u8>,
}

// What is left of a base, and the groups that change.
#[derive(Drop)]
pub(crate) struct Walk<'a> {
    pub(crate) left: Left<'a>,
    pub(crate) changed: Changed,
}

impl<'a> Walk<'a> {
    // Passes the rows of the base whose codes are less than this, or all: their groups change.
    fn pass_below(&mut self, alloc: Global, code: Option<&[u8]>)
        ensures { Once self.old.changed self.new.changed (Passes code.entry self.old self.new) }
    {
        'below: while self.left.is_below(code) {
            let key = self.left.pass();
            self.changed.add(alloc, &key);
        }
    }

    // The key of the next row's group: that of the base's row with this code, and else its group changes.
    fn take(&mut self, alloc: Global, coded: &Coded<'_>) -> Digest
        ensures { Once self.old.changed self.new.changed (Takes coded.now self.old self.new result) }
    {
        known_storable(coded.row);
        let code = coded.code.as_slice();
        self.pass_below(alloc, Some(code));
        if self.left.is_next(code) {
            return self.left.pass();
        }
        match row_key(alloc, coded.row) {
            Ok(key) => {
                self.changed.add(alloc, &key);
                key
            }
            Err(_) => {
                self.changed.fail();
                Digest([0; 32])
            }
        }
    }
}

// Says that a row may be stored.
fn known_storable(row: &Row)
    ensures { IsStorable row.now }
{
    let _op = row.op();
}

// These rows with their codes.
fn coded_rows<'a>(alloc: Global, rows: &'a [Row]) -> Result<Vec<Coded<'a>>, AllocError>
    ensures rows { IfOk result (λ v. map row_of v.items ≡ rows.now) }
    ensures coded { IfOk result (λ v. All IsCoded v.items) }
{
    let mut coded = Vec::new(alloc);
    for row in rows {
        let code = row_code(alloc, row)?;
        coded.push(Coded { code, row })?;
    }
    Ok(coded)
}

// These rows with their codes, in the order of these.
fn rows_by_code<'a>(alloc: Global, rows: &'a [Row]) -> Result<Vec<Coded<'a>>, AllocError>
    ensures rows { IfOk result (λ v. IsPermutation rows.now (map row_of v.items)) }
    ensures coded { IfOk result (λ v. All IsCoded v.items) }
    ensures order { IfOk result (λ v. IsAscending (map (λ c. c.code.items) v.items)) }
{
    let mut coded = coded_rows(alloc, rows)?;
    coded.sort_by(|a, b| a.code.cmp(&b.code))?;
    Ok(coded)
}

// The codes of these rows with their keys, as the walk goes on over them.
fn keyed_codes(alloc: Global, walk: &mut Walk<'_>, rows: Vec<Coded<'_>>) -> Vec<Keyed>
    ensures { Once walk.old.changed walk.new.changed (TakesAll rows.entry.items walk.old walk.new result.items) }
{
    let mut keyed = Vec::new(alloc);
    for coded in rows {
        let key = walk.take(alloc, &coded);
        let Coded { code, .. } = coded;
        walk.changed.keep(&mut keyed, Keyed { key, code });
    }
    keyed
}

// The codes of these rows, ascending, with their keys, and the groups that change from a base with these marks and
// codes.
pub(crate) fn compared(
    alloc: Global,
    rows: &[Row],
    marks: &[Mark],
    text: &[u8],
) -> Result<(Vec<Keyed>, Changed), AllocError>
    requires { All TellsKey (cut_by marks.now text.now) }
    ensures rows { IfOk result (λ p. IsPermutation (map pair_of rows.now) (map pair_in p.0.items)) }
    ensures order { IfOk result (λ p. IsAscending (map (λ k. k.code.items) p.0.items)) }
    ensures bare { IfOk result (λ p. Holds p.1 []) }
    ensures covers { IfOk result (λ p. Covers p.1 (cut_by marks.now text.now) (map pair_in p.0.items)) }
    ensures found { IfOk result (λ p. IsAscending (seconds (cut_by marks.now text.now)) → (k : List ℕ) → Has p.1 k →
        IsChanged (cut_by marks.now text.now) (map pair_in p.0.items) k) }
{
    let coded = rows_by_code(alloc, rows)?;
    let changed = Changed::new(alloc);
    let left = Left { marks, text };
    let mut walk = Walk { left, changed };
    let keyed = keyed_codes(alloc, &mut walk, coded);
    walk.pass_below(alloc, None);
    if walk.changed.has_failed() {
        return Err(AllocError);
    }
    Ok((keyed, walk.changed))
}
