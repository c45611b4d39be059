// What a deploy leaves and what a replay answers belong together.
ghost use Rattle.recorded_runs.specs.Laws.{KeptLogsAreAnswered};

/// The log that a deploy kept is answered by that deploy's verdict, cost, root and output, or a clash of digests is
/// shown.
pub fn kept_logs_are_answered()
    ensures law { KeptLogsAreAnswered }
{}
