// Each law of the definitions stands in the contract of one function, which does nothing.

ghost use Rattle.event_log.specs.Laws.{OnlyTextsAreRead, WrittenLogsAreRead};

/// What is written is read.
pub fn written_logs_are_read()
    ensures law { WrittenLogsAreRead }
{}

/// What is read was written so.
pub fn only_texts_are_read()
    ensures law { OnlyTextsAreRead }
{}
