ghost use Rattle.events.specs.EventLaws.{EndedEventsAreARun, EventsAreLegal, FreshDigestsAreFresh, IdsAreOfferedOnce, IdsAreSpentOnce, LonelyOperationsAreStored, MeetingsAreSteps, SpentIdsAreGone, TakenRowsAreSpent};

/// The steps of any list of events are a legal list, and lead to the rows that are stored and pending, under fresh digests.
pub fn events_are_legal()
    ensures law { EventsAreLegal }
{}

/// Once nothing is pending, or the verdict is not done, they are a run.
pub fn ended_events_are_a_run()
    ensures law { EndedEventsAreARun }
{}

/// Rows at hand that meet make a step, and a step that takes a row away has the repeat number 0.
pub fn meetings_are_steps()
    ensures law { MeetingsAreSteps }
{}

/// An operation that meets no rows at hand may be stored.
pub fn lonely_operations_are_stored()
    ensures law { LonelyOperationsAreStored }
{}

/// No row's id is offered twice along a legal list, and none that stood there before.
pub fn ids_are_offered_once()
    ensures law { IdsAreOfferedOnce }
{}

/// From the empty state, digests that are fresh beside the names of the built-in channels are fresh without them.
pub fn fresh_digests_are_fresh()
    ensures law { FreshDigestsAreFresh }
{}

/// What a step of a legal list spends is named by no later step, under fresh digests.
pub fn spent_ids_are_gone()
    ensures law { SpentIdsAreGone }
{}

/// So no id is spent by two of its steps.
pub fn ids_are_spent_once()
    ensures law { IdsAreSpentOnce }
{}

/// A step spends each linear or peeking receiver that it takes, and each linear datum that it takes without a peek.
pub fn taken_rows_are_spent()
    ensures law { TakenRowsAreSpent }
{}
