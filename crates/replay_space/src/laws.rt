// Each law stands in the contract of one function, which does nothing.
ghost use Rattle.replay_space.specs.Fits.{FitsTellDoings};
ghost use Rattle.replay_space.specs.Kept.{SeenTellTurns};
ghost use Rattle.replay_space.specs.Uses.{UsesHavePlaces};

/// The use of an id at a place is the member of the list of its uses there, and each step that names the id is its use
/// at the place that is the number of such steps before it.
pub fn uses_have_places()
    ensures law { UsesHavePlaces }
{}

/// What is kept of the rows that a step names tells exactly whether it is its turn, under fresh digests.
pub fn seen_tell_turns()
    ensures law { SeenTellTurns }
{}

/// What has arrived and is kept rightly fits a step exactly where it is its turn and the rows fit it, under fresh
/// digests.
pub fn fits_tell_doings()
    ensures law { FitsTellDoings }
{}
