// Each law stands in the contract of one function, which does nothing.

ghost use Rattle.calculus.specs.ListLaws.{ExchangesPermute, PermutationsExchange};

/// Exchanges of neighbours, under members that stay, permute a list.
pub fn exchanges_permute<A>()
    ensures law { ExchangesPermute A }
{}

/// Each permutation is made by exchanges of neighbours, under members that stay.
pub fn permutations_exchange<A>()
    ensures law { PermutationsExchange A }
{}
