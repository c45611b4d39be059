// Each law stands in the contract of one function, which does nothing.
ghost use Rattle.row_search.specs.Laws.{FoundIsAtHand, FoundIsNext, NothingIsAtHand, NothingIsStored};

/// An operation that meets nothing at hand meets no stored rows and built-in receivers.
pub fn nothing_is_at_hand()
    ensures law { NothingIsAtHand }
{}

/// What is found are stored rows and built-in receivers that meet, the operation among them.
pub fn found_is_at_hand()
    ensures law { FoundIsAtHand }
{}

/// An operation that meets nothing at hand may be stored, under fresh digests.
pub fn nothing_is_stored()
    ensures law { NothingIsStored }
{}

/// What is found is the next step of rows at hand, under fresh digests.
pub fn found_is_next()
    ensures law { FoundIsNext }
{}
