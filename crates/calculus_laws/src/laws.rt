// Each law of the definitions stands in the contract of one function, which does nothing.

ghost use Rattle.calculus.specs.Laws.{CandidatesSuffice, CongruenceIsReflexive, DataDiffer, EndIsDecided, NilOffersNothing, OneState, OneUnfolding, RoomKeepsState, RoomKeepsWork, VariableMatchesOnce};

/// Each process is congruent to itself.
pub fn congruence_is_reflexive()
    ensures law { CongruenceIsReflexive }
{}

/// A variable of a pattern has one match, which is the whole process.
pub fn variable_matches_once()
    ensures law { VariableMatchesOnce }
{}

/// The empty process offers nothing, at price 0.
pub fn nil_offers_nothing()
    ensures law { NilOffersNothing }
{}

/// More room for the recursion of an unfolding leaves what it comes to as it is.
pub fn room_keeps_work()
    ensures law { RoomKeepsWork }
{}

/// A process unfolds to one thing at most.
pub fn one_unfolding()
    ensures law { OneUnfolding }
{}

/// More room for the unfoldings of a list of steps leaves the state that it leads to as it is.
pub fn room_keeps_state()
    ensures law { RoomKeepsState }
{}

/// A list of steps leads to one state at most.
pub fn one_state()
    ensures law { OneState }
{}

/// The data of an allowed step differ from one another.
pub fn data_differ()
    ensures law { DataDiffer }
{}

/// Where none of the candidates is allowed, no step is.
pub fn candidates_suffice()
    ensures law { CandidatesSuffice }
{}

/// The candidates decide whether a run may end in a state.
pub fn end_is_decided()
    ensures law { EndIsDecided }
{}
