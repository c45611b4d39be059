// Each law stands in the contract of one function, which does nothing.

ghost use Rattle.events.specs.FreshLaws.{EventsAreARunOrCollide, EventsAreARunOrShowAnId, EventsAreFresh, EventsAreFreshOrShowAnId, LegalListsAreFresh, LegalListsAreFreshOrShowAnId, MadeDigestsDiffer, OldDigestsDiffer, RoomAddsNoTexts, ShortProcessesAreNumberable, SmallProcessesAreNumberable};

/// What a legal list hashes depends on no bound on how deep processes are unfolded.
pub fn room_adds_no_texts()
    ensures law { RoomAddsNoTexts }
{}

/// Wherever legal steps lead, no two ids or names that are built in or made are equal, or two texts that are hashed
/// collide.
pub fn made_digests_differ()
    ensures law { MadeDigestsDiffer }
{}

/// Nor is one of them an old digest, as one that the checkpoint holds, or that one is named.
pub fn old_digests_differ()
    ensures law { OldDigestsDiffer }
{}

/// Along a legal list from the empty state the digests are fresh, or texts collide.
pub fn legal_lists_are_fresh()
    ensures law { LegalListsAreFresh }
{}

/// Along a legal list from a checkpoint they are fresh, or a row's id is a built-in receiver's or made again, or texts
/// collide.
pub fn legal_lists_are_fresh_or_show_an_id()
    ensures law { LegalListsAreFreshOrShowAnId }
{}

/// Whatever events lead to from the empty state has fresh digests, or texts collide.
pub fn events_are_fresh()
    ensures law { EventsAreFresh }
{}

/// Whatever events lead to from a checkpoint has them, or a row's id is a built-in receiver's or made again, or texts
/// collide.
pub fn events_are_fresh_or_show_an_id()
    ensures law { EventsAreFreshOrShowAnId }
{}

/// Whatever events lead to from the empty state is a run once it has ended, with no premise on digests, or texts
/// collide.
pub fn events_are_a_run_or_collide()
    ensures law { EventsAreARunOrCollide }
{}

/// From a checkpoint it is one too, or a row's id is a built-in receiver's or made again, or texts collide.
pub fn events_are_a_run_or_show_an_id()
    ensures law { EventsAreARunOrShowAnId }
{}

/// Four bytes number the parts and names of a process with a short code.
pub fn short_processes_are_numberable()
    ensures law { ShortProcessesAreNumberable }
{}

/// They number those of a process of few nodes and few names.
pub fn small_processes_are_numberable()
    ensures law { SmallProcessesAreNumberable }
{}
