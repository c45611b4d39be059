// Worked examples stand in the contract of a function that does nothing.

ghost use Rattle.process_laws.specs.MatchingExamples.{AlikeExamples};

/// Worked examples of matches that are alike or not.
pub fn alike_examples()
    ensures examples { AlikeExamples }
{}
