// Each law stands in the contract of one function, which does nothing.

ghost use Rattle.source_laws.specs.ClosedLaws.{AcceptedIsClosed, AcceptedTextIsClosed, SpeltIsWellFormed, TextIsWellFormed};

/// A well-formed process that breaks no rule of scope stands for a closed process in normal order.
pub fn accepted_is_closed()
    ensures law { AcceptedIsClosed }
{}

/// What the grammar spells is well formed: of any tokens whose contents are of their forms, and so
/// of the tokens of any text.
pub fn spelt_is_well_formed()
    ensures of_tokens { SpeltIsWellFormed }
    ensures of_texts { TextIsWellFormed }
{}

/// A text that spells a process which breaks no rule of scope stands for a closed process in normal
/// order.
pub fn accepted_text_is_closed()
    ensures law { AcceptedTextIsClosed }
{}
