// Worked examples stand in the contract of a function that does nothing.

ghost use Rattle.printed_spelling.specs.TermExamples.{SpelledExamples};

/// Worked examples of written processes.
pub fn spelled_examples()
    ensures examples { SpelledExamples }
{}
