ghost use Rattle.made_input.specs.Laws.{MadeInputsAreShort};

/// A made input is no longer than a source may be.
pub fn made_inputs_are_short()
    ensures law { MadeInputsAreShort }
{}
