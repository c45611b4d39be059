// Each law stands in the contract of one function, which does nothing.

ghost use Rattle.process_laws.specs.CongruentLaws.{UnfoldingsAreAlike};

/// Congruent closed processes with short codes unfold alike with one seed.
pub fn unfoldings_are_alike()
    ensures law { UnfoldingsAreAlike }
{}
