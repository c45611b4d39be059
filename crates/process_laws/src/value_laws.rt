// Each law stands in the contract of one function, which does nothing.

ghost use Rattle.process_laws.specs.ValuedLaws.{CodesAreKept, ValuesAreAlike};

/// Congruent trees have one code.
pub fn codes_are_kept()
    ensures law { CodesAreKept }
{}

/// Congruent closed processes have congruent values at one price, or one fault.
pub fn values_are_alike()
    ensures law { ValuesAreAlike }
{}
