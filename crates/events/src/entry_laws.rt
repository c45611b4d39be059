// Each law stands in the contract of one function, which does nothing.

ghost use Rattle.events.specs.EntryLaws.{AllowedEntriesAreARunOrCollide, AllowedEntriesAreARunOrShowAnId, AllowedEntriesReach, EntriesTellTheirSteps, FirstFaultsStand, FreshDigestsWereFresh, LeavingStepsAreFirst, LonelyEntriesAreAllowed, MovedRowsAreAmong, NoEntriesAreAllowed, OfferedIdsDiffer, OneMoreEntryAddsUp, OneMoreIsAllowed, OwnStepsAreAllowed, QueuesArePending, QueuesHaveNoEntries, StepEntriesAreAllowed, StepsAreFew, StepsOfAPendingRowAreItsOwn};

/// Before the first entry the list of no entries is allowed.
pub fn no_entries_are_allowed()
    ensures law { NoEntriesAreAllowed }
{}

/// A list of allowed entries grows by an entry that is allowed after them.
pub fn one_more_is_allowed()
    ensures law { OneMoreIsAllowed }
{}

/// The entries tell the steps made and what was printed.
pub fn entries_tell_their_steps()
    ensures law { EntriesTellTheirSteps }
{}

/// What one more entry adds to steps, prices, faults and lines.
pub fn one_more_entry_adds_up()
    ensures law { OneMoreEntryAddsUp }
{}

/// The first fault stands, whatever comes after it.
pub fn first_faults_stand()
    ensures law { FirstFaultsStand }
{}

/// Digests that are fresh after an entry are fresh before it.
pub fn fresh_digests_were_fresh()
    ensures law { FreshDigestsWereFresh }
{}

/// A pending operation that makes no step with the rows of a table may be stored.
pub fn lonely_entries_are_allowed()
    ensures law { LonelyEntriesAreAllowed }
{}

/// A pending operation may make a step that it makes with the rows of a table.
pub fn step_entries_are_allowed()
    ensures law { StepEntriesAreAllowed }
{}

/// A step that names a pending operation was made by that operation alone, under fresh digests.
pub fn steps_of_a_pending_row_are_its_own()
    ensures law { StepsOfAPendingRowAreItsOwn }
{}

/// So it may make a step whose repeat number is counted among its own.
pub fn own_steps_are_allowed()
    ensures law { OwnStepsAreAllowed }
{}

/// A step that takes a row away was not made before, under fresh digests.
pub fn leaving_steps_are_first()
    ensures law { LeavingStepsAreFirst }
{}

/// Rows in another order are the same rows.
pub fn moved_rows_are_among()
    ensures law { MovedRowsAreAmong }
{}

/// What a queue and the operation in hand become by an entry are what is pending after it, under fresh digests.
pub fn queues_are_pending()
    ensures law { QueuesArePending }
{}

/// Operations that wait in a queue have no entries, under fresh digests.
pub fn queues_have_no_entries()
    ensures law { QueuesHaveNoEntries }
{}

/// Allowed entries are events from the beginning of the deploy on, under fresh digests.
pub fn allowed_entries_reach()
    ensures law { AllowedEntriesReach }
{}

/// No id is offered twice there.
pub fn offered_ids_differ()
    ensures law { OfferedIdsDiffer }
{}

/// From the empty state, allowed entries come to a legal list, which is a run once it has ended, or texts collide.
pub fn allowed_entries_are_a_run_or_collide()
    ensures law { AllowedEntriesAreARunOrCollide }
{}

/// From a checkpoint they do so too, or a row's id is a built-in receiver's or made again, or texts collide.
pub fn allowed_entries_are_a_run_or_show_an_id()
    ensures law { AllowedEntriesAreARunOrShowAnId }
{}

/// The prices of steps bound their number.
pub fn steps_are_few()
    ensures law { StepsAreFew }
{}
