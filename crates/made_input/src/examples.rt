ghost use Rattle.made_input.specs.Examples.{MadeExamples};

/// Made inputs, written out.
pub fn made_examples()
    ensures examples { MadeExamples }
{}
