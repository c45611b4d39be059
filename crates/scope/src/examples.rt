// Worked examples stand in the contract of a function that does nothing.

ghost use Rattle.scope.specs.ExamplesScope.{ScopeExamples};

/// Worked examples of broken rules.
pub fn scope_examples()
    ensures examples { ScopeExamples }
{}
