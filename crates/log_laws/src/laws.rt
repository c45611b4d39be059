ghost use Rattle.log_laws.specs.Laws.{CausesAreTold, CutLogsAreShort, OnlyLogsAreRead, RefusalsHaveCauses};

/// Each proper prefix of the text of a log is refused as ending early, at its own length.
pub fn cut_logs_are_short()
    ensures law { CutLogsAreShort }
{}

/// Bytes that are read are the text of the log that is told, and this may be written.
pub fn only_logs_are_read()
    ensures law { OnlyLogsAreRead }
{}

/// Bytes that are refused have the cause that is told: they end before a log's text does, or have a byte that no
/// log's text goes on with, another version, or too many steps.
pub fn refusals_have_causes()
    ensures law { RefusalsHaveCauses }
{}

/// Bytes that have such a cause are refused for it.
pub fn causes_are_told()
    ensures law { CausesAreTold }
{}
