// Worked examples stand in the contract of a function that does nothing.

ghost use Rattle.replays.specs.RunExamples.{TurnExamples};

/// Worked examples of lists of steps that are allowed in turn, and of some that are not.
pub fn turn_examples()
    ensures examples { TurnExamples }
{}
