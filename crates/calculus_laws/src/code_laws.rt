// Each law of codes stands in the contract of one function, which does nothing.

ghost use Rattle.calculus.specs.CodeLaws.{CodeIsCongruence, CodesSplit, NoCodeIsPrefix};

/// Of two well-formed trees of one sort, in any scopes, neither has a code that is a proper prefix
/// of the other's, where both codes are shorter than 2^32 bytes. So codes can be read, and compared,
/// one constituent at a time.
pub fn codes_split()
    ensures law { CodesSplit }
{}

/// No code of a closed process is a proper prefix of another such code, where both are shorter than
/// 2^32 bytes.
pub fn no_code_is_prefix()
    ensures law { NoCodeIsPrefix }
{}

/// Closed processes whose codes are shorter than 2^32 bytes have equal codes exactly where they are
/// congruent.
pub fn code_is_congruence()
    ensures law { CodeIsCongruence }
{}
