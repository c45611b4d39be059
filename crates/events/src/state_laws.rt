ghost use Rattle.events.specs.StateLaws.{RootIgnoresOrder, TextIgnoresOrder};

/// Rows in another order have the same root.
pub fn root_ignores_order()
    ensures law { RootIgnoresOrder }
{}

/// Rows in another order have the same text.
pub fn text_ignores_order()
    ensures law { TextIgnoresOrder }
{}
