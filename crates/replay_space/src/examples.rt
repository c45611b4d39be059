ghost use Rattle.replay_space.specs.Examples.{RigExamples};

/// Worked examples of what is kept of a log and of rows.
pub fn rig_examples()
    ensures examples { RigExamples }
{}
