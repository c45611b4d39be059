// Each law stands in the contract of one function, which does nothing.

ghost use Rattle.code_faults.specs.Laws.{WrongBytesAreNoCode, NamelessBytesAreNoCode, WrongAtOnePlace, OneCauseAtOnePlace, DeepBytesAreHigh};

/// Bytes that are wrong at a place are no code of a closed process, of any height, and no prefix of one.
pub fn wrong_bytes_are_no_code()
    ensures law { WrongBytesAreNoCode }
{}

/// Bytes that have a method's name of no bytes at a place are no code of a closed process either, and no prefix
/// of one.
pub fn nameless_bytes_are_no_code()
    ensures law { NamelessBytesAreNoCode }
{}

/// Bytes are wrong at no later place, but where no such code begins with the bytes before that.
pub fn wrong_at_one_place()
    ensures law { WrongAtOnePlace }
{}

/// Bytes that are wrong at a place, or have a method's name of no bytes there, are not too deep at it, but where
/// no such code begins with the bytes before it.
pub fn one_cause_at_one_place()
    ensures law { OneCauseAtOnePlace }
{}

/// Bytes that are too deep at a place begin the code of no closed process of height at most 400.
pub fn deep_bytes_are_high()
    ensures law { DeepBytesAreHigh }
{}
