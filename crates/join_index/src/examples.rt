// Worked examples.

ghost use Rattle.join_index.specs.Examples.{GroupExamples};

/// Lists of groups.
pub fn group_examples()
    ensures examples { GroupExamples }
{}
