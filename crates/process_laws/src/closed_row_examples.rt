// Worked examples stand in the contract of a function that does nothing.

ghost use Rattle.process_laws.specs.ClosedRowExamples.{ClosedRowExamples};

/// Worked examples of rows that are closed, and of some that are not.
pub fn closed_row_examples()
    ensures examples { ClosedRowExamples }
{}
