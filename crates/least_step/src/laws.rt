// Each law stands in the contract of one function, which does nothing.
ghost use Rattle.least_step.specs.Laws.{LegalListsUseNothingUp};

/// Wherever a legal list of steps leads, they used up none of the rows at hand, under fresh digests.
pub fn legal_lists_use_nothing_up()
    ensures law { LegalListsUseNothingUp }
{}
