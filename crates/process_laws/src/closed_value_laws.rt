// Each law stands in the contract of one function, which does nothing.

ghost use Rattle.process_laws.specs.ClosedValueLaws.{BinaryIsClosed, MethodIsClosed, UnaryIsClosed, ValueIsClosed, ValueIsWithin};

/// An operator on one closed value gives a closed value or a fault.
pub fn unary_is_closed()
    ensures law { UnaryIsClosed }
{}

/// An operator on two closed values gives a closed value or a fault.
pub fn binary_is_closed()
    ensures law { BinaryIsClosed }
{}

/// A method of a closed value on closed arguments gives a closed value or a fault.
pub fn method_is_closed()
    ensures law { MethodIsClosed }
{}

/// A closed process has a closed value or a fault.
pub fn value_is_closed()
    ensures law { ValueIsClosed }
{}

/// The value of a process has at most height 400, and its code has at most 1,048,576 bytes.
pub fn value_is_within()
    ensures law { ValueIsWithin }
{}
