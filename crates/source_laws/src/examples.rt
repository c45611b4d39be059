// Worked examples stand in the contract of a function that does nothing.

ghost use Rattle.source_laws.specs.ExamplesClosed.{ClosedExamples};

/// Processes that break no rule of scope and come to no closed process, since they are not well formed.
pub fn closed_examples()
    ensures examples { ClosedExamples }
{}
