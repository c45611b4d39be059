// The law stands in the contract of a function that does nothing.
ghost use Rattle.event_log.specs.ReadableLaws.{ReadLogsAreWritable};

/// A log that was read may be written.
pub fn read_logs_are_writable()
    ensures law { ReadLogsAreWritable }
{}
