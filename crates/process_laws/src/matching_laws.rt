// Each law stands in the contract of one function, which does nothing.

ghost use Rattle.process_laws.specs.MatchingLaws.{BindsMatchAlike, MatchesAreAlike};

/// Congruent patterns match congruent closed processes alike.
pub fn matches_are_alike()
    ensures law { MatchesAreAlike }
{}

/// Congruent binds match congruent closed data alike.
pub fn binds_match_alike()
    ensures law { BindsMatchAlike }
{}
