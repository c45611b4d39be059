// Worked examples stand in the contract of a function that does nothing.

ghost use Rattle.process_laws.specs.ValuedExamples.{SameExamples};

/// Worked examples of congruent processes and what they come to.
pub fn same_examples()
    ensures examples { SameExamples }
{}
