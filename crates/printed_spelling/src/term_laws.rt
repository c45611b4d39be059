// Each law stands in the contract of one function, which does nothing.

ghost use Rattle.printed_spelling.specs.TermLaws.{OrderedIsCongruent, SpelledIsCongruent, SpelledIsOrdered};

/// A process with its parts and members in ascending order is congruent to it.
pub fn ordered_is_congruent()
    ensures law { OrderedIsCongruent }
{}

/// The written process of a closed process, with variables named by their numbers, has that process with
/// its parts in order for its bare form.
pub fn spelled_is_ordered()
    ensures law { SpelledIsOrdered }
{}

/// The written process of a closed process has a bare form that is congruent to it.
pub fn spelled_is_congruent()
    ensures law { SpelledIsCongruent }
{}
