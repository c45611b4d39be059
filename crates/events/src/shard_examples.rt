// Worked examples.

ghost use Rattle.events.specs.ShardExamples.{EntryExamples, HandExamples, StandingExamples};

/// Which rows stand in which shards.
pub fn standing_examples()
    ensures examples { StandingExamples }
{}

/// What entries make of shards.
pub fn entry_examples()
    ensures examples { EntryExamples }
{}

/// What shards in hand show of an operation, and what they don't.
pub fn hand_examples()
    ensures examples { HandExamples }
{}
