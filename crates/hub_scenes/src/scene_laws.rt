// The law stands in the contract of a function that does nothing.

ghost use Rattle.hub_scenes.specs.SceneLaws.{NumberedEntriesAddUp};

/// Entries that were drawn with each number once cost what all entries cost.
pub fn numbered_entries_add_up<E>()
    ensures law { NumberedEntriesAddUp E }
{}
