// Each law of substitution stands in the contract of one function, which does nothing.

ghost use Rattle.calculus.specs.SubstitutionLaws.{PutIsClosed, RenumberFits};

/// A body with closed values for all its variables, the first value for the variable that is bound
/// first, is a closed process.
pub fn put_is_closed()
    ensures law { PutIsClosed }
{}

/// A body whose variables are now other ones of the same senses is a process in their scope.
pub fn renumber_fits()
    ensures law { RenumberFits }
{}
