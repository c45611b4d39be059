// Worked examples stand in the contract of a function that does nothing.

ghost use Rattle.process_laws.specs.CongruentExamples.{SameWorkExamples};

/// Worked examples of processes that unfold alike, and of some that do not.
pub fn same_work_examples()
    ensures examples { SameWorkExamples }
{}
