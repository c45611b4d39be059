// Each law stands in the contract of one function, which does nothing.

ghost use Rattle.process_laws.specs.UnfoldingLaws.{EachProcessUnfolds};

/// Each closed process unfolds to exactly one thing, whatever the prices, the cap and the seed.
pub fn each_process_unfolds()
    ensures law { EachProcessUnfolds }
{}
