ghost use Rattle.events.specs.EventExamples.{EventExamples, SpendingExamples};

/// Worked examples of events.
pub fn event_examples()
    ensures examples { EventExamples }
{}

/// What steps spend.
pub fn spending_examples()
    ensures examples { SpendingExamples }
{}
