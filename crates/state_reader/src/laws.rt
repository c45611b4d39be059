ghost use Rattle.state_reader.specs.Laws.{OneFault, StatesAreRead};

/// The text of rows that stand in the order of a state and allow no step is refused for want of memory alone.
pub fn states_are_read()
    ensures law { StatesAreRead }
{}

/// Two faults that are both caused by the same bytes, of fewer than 2^32, are equal, memory aside; but where the
/// bytes end in a row that only codes of 2^32 bytes or more go on from.
pub fn one_fault()
    ensures law { OneFault }
{}
