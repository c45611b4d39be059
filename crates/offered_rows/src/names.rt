// The names that the channels of a receive stand for, and what is wrong with them.
ghost use Rattle.std.specs.Prelude.{◌≡◌, cond, map, All, IfOk, Some};
ghost use Rattle.calculus.specs.Operators.{is_among as has_congruent};
ghost use Rattle.calculus.specs.Outcome.{fails};
ghost use Rattle.calculus.specs.Rows.{Row};
ghost use Rattle.calculus.specs.Unfolding.{opened, all_readable, has_twins as are_twins, row_limits};
ghost use Rattle.calculus.specs.declared.fault.FaultKind.TheVariants as faults;
ghost use Rattle.value_ops.specs.Answers.{IsOperand};
ghost use Rattle.offered_rows.specs.Offers.{tested};

use crate::opened::opened_channel;
use calculus::FaultKind;
use rho_term::Term;
use std::alloc::{AllocError, Global};
use term_order::cmp_terms;

/// The names that channels stand for, and whether all their bundles let read.
#[derive(Drop)]
pub(crate) struct Names {
    pub names: Vec<Term>,
    pub readable: bool,
}

/// The names that these channels stand for. Want of memory is the one error.
pub(crate) fn opened_names(alloc: Global, channels: Vec<Term>) -> Result<Names, AllocError>
    ensures names { IfOk result (λ n. n.names.items ≡ map (λ c. c.name) (map opened channels.items)) }
    ensures readable { IfOk result (λ n. n.readable ≡ all_readable (map opened channels.items)) }
{
    let mut names = Vec::new(alloc);
    let mut readable = true;
    for channel in channels {
        let opened = opened_channel(channel);
        let read = opened.readable;
        readable = readable && read;
        names.push(opened.name)?;
    }
    Ok(Names { names, readable })
}

/// What is wrong with the channels of a receive: one does not let read, or else two are congruent.
pub(crate) fn names_fault(names: &Names) -> Option<FaultKind>
    requires { All IsOperand names.now.names.items }
    ensures { (r : Row) → tested result r ≡ cond names.now.readable
        (cond (are_twins names.now.names.items) (fails faults.SameChannel) (row_limits r)) (fails faults.NotReadable) }
{
    if !names.readable {
        return Some(FaultKind::NotReadable);
    }
    if has_twins(names.names.as_slice()) {
        return Some(FaultKind::SameChannel);
    }
    None
}

// Whether two of these are congruent.
fn has_twins(names: &[Term]) -> bool
    requires { All IsOperand names.now }
    ensures { result ≡ are_twins names.now }
{
    for i in 0..names.len() {
        if is_among(&names[i], &names[i + 1..]) {
            return true;
        }
    }
    false
}

// Whether one of these is congruent to this one.
fn is_among(name: &Term, others: &[Term]) -> bool
    requires name { IsOperand name.now }
    requires others { All IsOperand others.now }
    ensures { result ≡ has_congruent name.now others.now }
{
    for other in others {
        if cmp_terms(name, other).is_eq() {
            return true;
        }
    }
    false
}
