// Worked examples stand in the contract of a function that does nothing.

ghost use Rattle.code_faults.specs.ExamplesPlaces.{PlaceExamples};

/// Worked examples of places where bytes are wrong.
pub fn place_examples()
    ensures examples { PlaceExamples }
{}
