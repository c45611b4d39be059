// The worked examples of each subject stand in the contract of one function, which does nothing.

ghost use Rattle.calculus_laws.specs.Bare.{BareExamples};
ghost use Rattle.calculus_laws.specs.Form.{FormExamples};
ghost use Rattle.calculus_laws.specs.Congruence.{CongruenceExamples};
ghost use Rattle.calculus_laws.specs.Congruence.{CodeExamples};
ghost use Rattle.calculus_laws.specs.Values.{ValueExamples};
ghost use Rattle.calculus_laws.specs.Matches.{MatchExamples};
ghost use Rattle.calculus_laws.specs.Unfoldings.{UnfoldingExamples};
ghost use Rattle.calculus_laws.specs.Steps.{StepExamples};
ghost use Rattle.calculus_laws.specs.Runs.{RunExamples};
ghost use Rattle.calculus_laws.specs.Printed.{PrintedExamples};

/// Worked examples of bare forms.
pub fn bare_examples()
    ensures examples { BareExamples }
{}

/// Worked examples of closed processes.
pub fn form_examples()
    ensures examples { FormExamples }
{}

/// Worked examples of congruence.
pub fn congruence_examples()
    ensures examples { CongruenceExamples }
{}

/// Worked examples of codes, heights and substitution.
pub fn code_examples()
    ensures examples { CodeExamples }
{}

/// Worked examples of values, with prices and faults.
pub fn value_examples()
    ensures examples { ValueExamples }
{}

/// Worked examples of matches.
pub fn match_examples()
    ensures examples { MatchExamples }
{}

/// Worked examples of unfoldings, with prices and faults.
pub fn unfolding_examples()
    ensures examples { UnfoldingExamples }
{}

/// Worked examples of allowed steps.
pub fn step_examples()
    ensures examples { StepExamples }
{}

/// Worked examples of whole deploys, with SHA-256 computed.
pub fn run_examples()
    ensures examples { RunExamples }
{}

/// Worked examples of printed texts.
pub fn printed_examples()
    ensures examples { PrintedExamples }
{}
