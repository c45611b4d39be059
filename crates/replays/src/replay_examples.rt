ghost use Rattle.replays.specs.ReplayExamples.{ReplayExamples};

/// Worked examples of answers to replays.
pub fn replay_examples()
    ensures examples { ReplayExamples }
{}
