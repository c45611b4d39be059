ghost use Rattle.run_inputs.specs.Laws.{OneState, StatesAreNotRefused};

/// Bytes are the state of one list of rows alone.
pub fn one_state()
    ensures law { OneState }
{}

/// Where no row of a state has the id of a built-in receiver, its bytes have no cause to be no state.
pub fn states_are_not_refused()
    ensures law { StatesAreNotRefused }
{}
