// A state that a run starts from, and the next one.
ghost use Rattle.std.specs.Prelude.{◌≡◌, ◌≤◌, ◌<◌, ◌-◌, ◌/◌, [], List, drop, length, map, IfOk, OnOk};
ghost use Rattle.calculus.specs.Order.{sorted};
ghost use Rattle.calculus.specs.Root.{root};
ghost use Rattle.calculus.specs.Rows.{row_code as code_of_row};
ghost use Rattle.checkpoint.specs.Kept.{AreKept};
ghost use Rattle.checkpoint.specs.Made.{AreFor, AreMade, no_codes};
ghost use Rattle.radix_root.specs.Leaves.{Keeps, groups_of};
ghost use Rattle.events.specs.States.{state_text};
ghost use Rattle.next_states.specs.Pairs.{Pair, groups_in, OfState};
ghost use Rattle.next_states.specs.Walks.{Covers, Has, Holds, Once, Puts, pair_in};

use crate::changed::Changed;
use crate::walk::{Keyed, compared};
use calculus::{Digest, Steps};
use checkpoint::{Checkpoint, MadeState, Mark, Parts, made_state, text_of_codes};
use radix_root::RadixTree;
use space_row::Row;
use std::alloc::{AllocError, Global};
use std::marker::{Brand, Model};
use std::sync::ledger::{Blank, Ledger};

// How many bytes stand before the codes in the text of a state.
const HEADER: usize = 49;

/// A state that a run starts from, seen as its text.
///
/// The marks of its rows and the tree of their groups are kept beside the text, and the rows themselves are not.
#[derive(Drop)]
pub struct KnownState {
    text: Vec<u8>,
    marks: Vec<Mark>,
    tree: RadixTree,
}

impl Model for KnownState {
    ghost use Rattle.std.specs.Prelude.{List, ℕ};
    ghost use Rattle.next_states.specs.Pairs.{IsKnown};

    ghost Value = { List ℕ };

    ghost view = { λ a. a.text.items };

    ghost invariant = { λ a. IsKnown a.text.items a.marks.items a.tree };
}

impl KnownState {
    /// The rows of a checkpoint, and the state that it is, whose text this is.
    pub fn of(text: Vec<u8>, checkpoint: Checkpoint) -> (Vec<Row>, KnownState)
        requires { text.items ≡ state_text checkpoint }
        ensures rows { result.0.items ≡ checkpoint }
        ensures kept { AreKept checkpoint }
        ensures text { result.1 ≡ text.items }
    {
        let Parts { rows, tree, marks } = checkpoint.into_parts();
        (rows, KnownState { text, marks, tree })
    }

    /// The state that a checkpoint is, whose text this is. The rows are let go.
    pub fn without_rows(text: Vec<u8>, checkpoint: Checkpoint) -> KnownState
        requires { text.items ≡ state_text checkpoint }
        ensures { result ≡ text.items }
    {
        let (_rows, known) = KnownState::of(text, checkpoint);
        known
    }

    /// Its text.
    pub fn into_text(self) -> Vec<u8>
        ensures { result.items ≡ self }
    {
        self.text
    }

    /// The root of these rows, which may stand in any order, and the text of the state that holds them. Want of
    /// memory is the one error. The steps are counted in a ledger of its own.
    pub fn next_state(self, alloc: Global, rows: Vec<Row>) -> Result<MadeState, AllocError>
        ensures root { IfOk result (λ s. s.root.0 ≡ root rows.items) }
        ensures text { IfOk result (λ s. s.text.items ≡ state_text rows.items) }
    {
        next_in::<Brand>(alloc, self, rows, Blank::new(1))
    }

    /// The same. Each digest of a group or of a node above them is one more step.
    ///
    /// At most 65 are made for each group that changed from this state to the next; or, where that has over twice as
    /// many rows, for each of its groups.
    pub fn counted_next_state<L: Ledger>(
        self,
        alloc: Global,
        rows: Vec<Row>,
        steps: &mut Steps<L>,
    ) -> Result<MadeState, AllocError>
        ensures root { IfOk result (λ s. s.root.0 ≡ root rows.items) }
        ensures text { IfOk result (λ s. s.text.items ≡ state_text rows.items) }
        ensures made { OnOk result (OfState self (λ base.
            length rows.items / 2 ≤ length base → AreMade (groups_of base) (groups_of rows.items) (steps.new - steps.old))) }
        ensures anew { OnOk result (OfState self (λ base.
            length base < length rows.items / 2 → AreMade no_codes (groups_of rows.items) (steps.new - steps.old))) }
    {
        if rows.len() / 2 > self.marks.len() {
            return made_state(alloc, rows, steps);
        }
        let (root, keyed) = next_root(alloc, self, rows, steps)?;
        let codes = codes_of(alloc, keyed)?;
        let text = text_of_codes(alloc, &root, codes)?;
        Ok(MadeState { root, text })
    }
}

// The root of these rows, and the text of the state that holds them. The steps are counted in this ledger.
fn next_in<L: Ledger>(
    alloc: Global,
    known: KnownState,
    rows: Vec<Row>,
    blank: Blank,
) -> Result<MadeState, AllocError>
    requires name { blank.name ≡ L.name }
    requires parts { blank.parts ≡ L.parts }
    requires some { 0 < L.parts }
    ensures root { IfOk result (λ s. s.root.0 ≡ root rows.items) }
    ensures text { IfOk result (λ s. s.text.items ≡ state_text rows.items) }
{
    let mut steps = Steps::<L>::new(blank);
    known.counted_next_state(alloc, rows, &mut steps)
}

// The root of these rows, and their codes, ascending.
fn next_root<L: Ledger>(
    alloc: Global,
    known: KnownState,
    rows: Vec<Row>,
    steps: &mut Steps<L>,
) -> Result<(Digest, Vec<Keyed>), AllocError>
    ensures root { IfOk result (λ p. p.0.0 ≡ root rows.items) }
    ensures codes { IfOk result (λ p. map (λ k. k.code.items) p.1.items ≡ sorted (map code_of_row rows.items)) }
    ensures made { OnOk result (OfState known (λ base. AreMade (groups_of base) (groups_of rows.items) (steps.new - steps.old))) }
{
    let KnownState { text, marks, tree } = known;
    let codes = rest_of(text.as_slice(), HEADER);
    let (keyed, changed) = compared(alloc, rows.as_slice(), marks.as_slice(), codes)?;
    let next = changed_tree(alloc, tree, changed, keyed.as_slice(), steps)?;
    Ok((next.root(), keyed))
}

// These bytes but for so many.
fn rest_of(bytes: &[u8], len: usize) -> &[u8]
    requires { len ≤ length bytes.now }
    ensures { result.now ≡ drop len bytes.now }
{
    &bytes[len..]
}

// A tree with the codes of these pairs in each group that changes.
fn changed_tree<L: Ledger>(
    alloc: Global,
    tree: RadixTree,
    changed: Changed,
    keyed: &[Keyed],
    steps: &mut Steps<L>,
) -> Result<RadixTree, AllocError>
    requires { Holds changed [] }
    ensures tree { IfOk result (λ t. (all : List Pair) → Keeps tree (groups_in all) →
        Covers changed all (map pair_in keyed.now) → Keeps t (groups_in (map pair_in keyed.now))) }
    ensures made { OnOk result (AreFor (Has changed) (steps.new - steps.old)) }
{
    let mut changed = changed;
    gather(alloc, &mut changed, keyed);
    if changed.has_failed() {
        return Err(AllocError);
    }
    let groups = changed.into_groups(alloc, steps)?;
    tree.with_groups(alloc, groups.as_slice(), steps)
}

// Gathers these codes, as far as their groups change.
fn gather(alloc: Global, changed: &mut Changed, keyed: &[Keyed])
    ensures { Once changed.old changed.new (Puts changed.old changed.new (map pair_in keyed.now)) }
{
    for row in keyed {
        changed.put(alloc, &row.key, row.code.as_slice());
    }
}

// These codes without their keys.
fn codes_of(alloc: Global, keyed: Vec<Keyed>) -> Result<Vec<Vec<u8>>, AllocError>
    ensures { IfOk result (λ v. map (λ c. c.items) v.items ≡ map (λ k. k.code.items) keyed.items) }
{
    let mut codes = Vec::new(alloc);
    for row in keyed {
        codes.push(row.code)?;
    }
    Ok(codes)
}
