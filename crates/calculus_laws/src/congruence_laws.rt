// Each law of congruence stands in the contract of one function, which does nothing.

ghost use Rattle.calculus.specs.CongruenceLaws.{CongruenceIsSymmetric, CongruenceIsTransitive, CongruenceOfForms, CongruentHeights, OrderOfBag};

/// Congruence goes both ways.
pub fn congruence_is_symmetric()
    ensures law { CongruenceIsSymmetric }
{}

/// What is congruent to a process is congruent to what that process is congruent to.
pub fn congruence_is_transitive()
    ensures law { CongruenceIsTransitive }
{}

/// A form is congruent to the same form whose constituents are congruent one by one.
pub fn congruence_of_forms()
    ensures law { CongruenceOfForms }
{}

/// The parts of a process, and the members of a set or a map, stand in no order.
pub fn order_of_bag()
    ensures law { OrderOfBag }
{}

/// Congruent processes have one height.
pub fn congruent_heights()
    ensures law { CongruentHeights }
{}
