ghost use Rattle.events.specs.StateExamples.{StateExamples};

/// Worked examples of texts of states.
pub fn state_examples()
    ensures examples { StateExamples }
{}
