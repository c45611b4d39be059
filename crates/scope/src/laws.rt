// Each law stands in the contract of one function, which does nothing.

ghost use Rattle.scope.specs.ScopeLaws.{NormalFormIsCongruent};

/// A process is congruent to its normal form.
pub fn normal_form_is_congruent()
    ensures law { NormalFormIsCongruent }
{}
