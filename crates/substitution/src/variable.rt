// What comes in place of a use of a variable.

ghost use Rattle.std.specs.Prelude.{◌≡◌, false, reverse};
ghost use Rattle.calculus.specs.Shape.{at, held, leaf};
ghost use Rattle.rho_term.specs.Normal.{IsOrdered};
ghost use Rattle.rho_term.specs.Parts.{part_tree};
ghost use Rattle.substitution.specs.Becoming.{Grows, Joins, change_of, index_in, use_of};

use crate::maker::Maker;
use rho_term::{Part, Term};

/// What comes in place of the variables that are bound around a process: closed values, the first one
/// for the first variable bound, or the variables of other indices, the new ones by the old ones.
#[derive(Clone, Copy)]
pub(crate) enum Replacement<'a> {
    Values(&'a [Term]),
    Indices(&'a [u32]),
}

/// What a variable stands for: a process, or the one that a name quotes.
#[derive(Clone, Copy)]
pub(crate) enum Sense {
    Process,
    Name,
}

/// A use of the variable of this index under so many inner variables, at the end of these: it stays where
/// the variable is an inner one.
pub(crate) fn put_variable(
    maker: &mut Maker,
    out: &mut Vec<Part>,
    sense: Sense,
    index: u32,
    replacement: &Replacement,
    depth: u64,
)
    ensures { maker.new.failed ≡ false → (maker.old.failed ≡ false) ×
        Grows part_tree (change_of replacement.now) depth (leaf (use_of sense index)) out.old.items out.new.items }
{
    if (index as u64) < depth {
        maker.add(out, variable(sense, index));
        return;
    }
    let place = index as u64 - depth;
    match replacement {
        Replacement::Values(values) => put_value(maker, out, place, values),
        Replacement::Indices(indices) => {
            let index = maker.index_past(index_at(indices, place), depth as u32);
            maker.add(out, variable(sense, index));
        }
    }
}

// A use of the variable of this index.
fn variable(sense: Sense, index: u32) -> Part
    ensures parts { part_tree result ≡ leaf (use_of sense index) }
    ensures ordered { IsOrdered (part_tree result) }
{
    match sense {
        Sense::Process => Part::Var(index),
        Sense::Name => Part::NameVar(index),
    }
}

// The new index of the variable of this index; past the end it is the last one.
fn index_at(indices: &[u32], place: u64) -> u32
    ensures { result ≡ index_in indices.now place }
{
    if indices.is_empty() {
        return 0;
    }
    let last = indices.len() - 1;
    if place >= last as u64 {
        return indices[last];
    }
    indices[place as usize]
}

// The parts of the value of the variable of this index, at the end of these. Without a value it has none.
fn put_value(maker: &mut Maker, out: &mut Vec<Part>, place: u64, values: &[Term])
    ensures { maker.new.failed ≡ false → (maker.old.failed ≡ false) ×
        Joins part_tree (held (at place (reverse values.now))) out.old.items out.new.items }
{
    if place >= values.len() as u64 {
        return;
    }
    put_copies(maker, out, &values[values.len() - 1 - place as usize]);
}

// Copies of the parts of a value, at the end of these.
fn put_copies(maker: &mut Maker, out: &mut Vec<Part>, value: &Term)
    ensures { maker.new.failed ≡ false → (maker.old.failed ≡ false) × Joins part_tree (held value.now) out.old.items out.new.items }
{
    for part in value.parts() {
        let copy = maker.copy(part);
        maker.add(out, copy);
    }
}
