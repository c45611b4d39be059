ghost use Rattle.replays.specs.ReplayLaws.{OneAnswer, RefusedLogsAreNoRuns, RunsAreReplayed};

/// A log has one answer at most.
pub fn one_answer()
    ensures law { OneAnswer }
{}

/// A log whose steps are a run is answered by what that run came to.
pub fn runs_are_replayed()
    ensures law { RunsAreReplayed }
{}

/// A log that is refused, under a right header, is no run.
pub fn refused_logs_are_no_runs()
    ensures law { RefusedLogsAreNoRuns }
{}
