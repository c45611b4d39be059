// Worked examples.

ghost use Rattle.events.specs.FreshExamples.{FreshExamples, HashedExamples, NumberExamples, NumbersNeedRoom};

/// The digests of a small deploy, which are fresh.
pub fn fresh_examples()
    ensures examples { FreshExamples }
{}

/// The texts that deploys hash.
pub fn hashed_examples()
    ensures examples { HashedExamples }
{}

/// What has to be numbered of a process.
pub fn number_examples()
    ensures examples { NumberExamples }
{}

/// Numbers of 2^32 and more have the texts of smaller ones.
pub fn numbers_need_room()
    ensures law { NumbersNeedRoom }
{}
