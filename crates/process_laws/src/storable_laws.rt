// Each law stands in the contract of one function, which does nothing.

ghost use Rattle.process_laws.specs.StorableLaws.{BodiesOfferStorableRows, BuiltInReceiversAreStorable, OffersAreShort, OffersAreStorable, StorableChannelsAreApart, StorableRowsAreClosed, StorableRowsAreShort, StorableRowsStay};

/// What a closed process offers may be stored.
pub fn offers_are_storable()
    ensures law { OffersAreStorable }
{}

/// Among rows that may be stored, what the body of a meeting offers may be stored.
pub fn bodies_offer_storable_rows()
    ensures law { BodiesOfferStorableRows }
{}

/// From rows that may be stored and a closed process, the rows of each state that a list of steps leads to may be stored.
pub fn storable_rows_stay()
    ensures law { StorableRowsStay }
{}

/// The built-in receivers meet the conditions of rows that may be stored.
pub fn built_in_receivers_are_storable()
    ensures law { BuiltInReceiversAreStorable }
{}

/// Rows that may be stored are closed.
pub fn storable_rows_are_closed()
    ensures law { StorableRowsAreClosed }
{}

/// The code of a row that may be stored has 1,048,576 bytes at most.
pub fn storable_rows_are_short()
    ensures law { StorableRowsAreShort }
{}

/// No two channels of a row that may be stored are congruent.
pub fn storable_channels_are_apart()
    ensures law { StorableChannelsAreApart }
{}

/// The rows that any process offers are within the limit on their length.
pub fn offers_are_short()
    ensures law { OffersAreShort }
{}
