// Each law stands in the contract of one function, which does nothing.

ghost use Rattle.process_laws.specs.ClosedRowLaws.{BodiesAreClosed, ClosedRowsStay, OffersAreClosed, SortedReceivesAreClosed};

/// A closed receive is closed with its binds in the order of their channels' codes.
pub fn sorted_receives_are_closed()
    ensures law { SortedReceivesAreClosed }
{}

/// What a closed process offers is closed.
pub fn offers_are_closed()
    ensures law { OffersAreClosed }
{}

/// In a bag of closed rows, the body of an allowed step is closed once its bindings are put in.
pub fn bodies_are_closed()
    ensures law { BodiesAreClosed }
{}

/// From closed rows and a closed process, the rows of each state that a list of steps leads to are closed.
pub fn closed_rows_stay()
    ensures law { ClosedRowsStay }
{}
