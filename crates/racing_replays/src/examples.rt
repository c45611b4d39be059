ghost use Rattle.racing_replays.specs.Examples.{ReplayExamples};

/// Worked examples of replays by many workers.
pub fn replay_examples()
    ensures examples { ReplayExamples }
{}
