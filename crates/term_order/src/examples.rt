// Worked examples stand in the contract of a function that does nothing.

ghost use Rattle.term_order.specs.Examples.{OrderExamples};
ghost use Rattle.term_order.specs.ExamplesNormal.{NormalExamples};

/// Worked examples of which of two processes stands first.
pub fn order_examples()
    ensures examples { OrderExamples }
{}

/// Worked examples of processes that are normal or not.
pub fn normal_examples()
    ensures examples { NormalExamples }
{}
