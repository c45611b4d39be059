// Worked examples.

ghost use Rattle.events.specs.EntryExamples.{AfterExamples, FirstPathExamples, ShownExamples, VerdictExamples};

/// What entries make of a space.
pub fn after_examples()
    ensures examples { AfterExamples }
{}

/// What shows that an entry is allowed.
pub fn shown_examples()
    ensures examples { ShownExamples }
{}

/// Verdicts and costs that entries tell.
pub fn verdict_examples()
    ensures examples { VerdictExamples }
{}

/// The entries of a whole deploy, and what they come to.
pub fn first_path_examples()
    ensures examples { FirstPathExamples }
{}
