// Worked examples stand in the contract of a function that does nothing.

ghost use Rattle.printed_spelling.specs.TextExamples.{SpellingExamples};

/// Worked examples of printed texts: processes that meet what the laws ask, with their texts.
pub fn spelling_examples()
    ensures examples { SpellingExamples }
{}
