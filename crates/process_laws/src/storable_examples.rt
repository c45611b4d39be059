// The worked examples of each subject stand in the contract of one function, which does nothing.

ghost use Rattle.process_laws.specs.StorableExamples.{StorableRowExamples};
ghost use Rattle.process_laws.specs.Storing.{StoringExamples};

/// Worked examples of one row that may be stored, or not.
pub fn storing_examples()
    ensures examples { StoringExamples }
{}

/// Worked examples of rows that may be stored and of channels that are apart, and of some that are not.
pub fn storable_row_examples()
    ensures examples { StorableRowExamples }
{}
