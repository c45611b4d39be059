ghost use Rattle.std.specs.Prelude.{◌≡◌, IsTrue, IfOk};
ghost use Rattle.calculus.specs.Bare.{bare};
ghost use Rattle.calculus.specs.Congruence.{congruent};
ghost use Rattle.calculus.specs.Meaning.{proc_written};
ghost use Rattle.scope.specs.NormalForm.{normal_form};
ghost use Rattle.scope.specs.Rules.{broken_rules};
ghost use Rattle.input_faults.specs.Walks.{Judges};

use crate::make::make_term;
use crate::maker::Maker;
use calculus::Proc;
use input_faults::ScopeFault;
use rho_term::Term;
use scope_check::check_scope;
use std::alloc::Global;

/// The normal term of a process, which is congruent to the process without its names.
///
/// `Ok` comes only where the process breaks no rule of scope; a refusal names the first rule that it
/// breaks in reading order, or want of memory.
pub fn normalize(alloc: Global, p: &Proc) -> Result<Term, ScopeFault>
    ensures rules { Judges result (broken_rules (proc_written p.now)) }
    ensures term { IfOk result (λ t. t ≡ normal_form (bare (proc_written p.now))) }
    ensures congruent { IfOk result (λ t. IsTrue (congruent t (bare (proc_written p.now)))) }
{
    check_scope(alloc, p)?;
    let mut maker = Maker::new(alloc);
    let term = make_term(&mut maker, p);
    let term = maker.made(term)?;
    Ok(term)
}
