ghost use Rattle.calculus.specs.Meaning.{proc_written};
ghost use Rattle.scope.specs.Rules.{broken_rules};
ghost use Rattle.input_faults.specs.Walks.{Judges};

use crate::check::check_process;
use calculus::Proc;
use input_faults::ScopeFault;
use scope_names::Variables;
use std::alloc::Global;

/// Tests the rules of scope. `Ok` comes where a process breaks none; a refusal names the first rule that
/// it breaks in reading order, or want of memory.
pub fn check_scope(alloc: Global, p: &Proc) -> Result<(), ScopeFault>
    ensures { Judges result (broken_rules (proc_written p.now)) }
{
    let mut scope = Variables::new(alloc);
    check_process(alloc, &mut scope, p)
}
