// How a run ends whose plan was written.
ghost use Rattle.std.specs.Prelude.{◌≡◌};
ghost use Rattle.recorded_runs.specs.Written.{status_after};

use replays::Verdict;
use run_reports::Halt;
use run_status::{Status, status_of};

/// The status of a run with this verdict, where the writing of what it leaves came to this.
pub(crate) fn status_after(verdict: Verdict, written: Result<(), Halt>) -> Status
    ensures { result ≡ status_after verdict written }
{
    match written {
        Ok(()) => status_of(verdict),
        Err(halt) => Status::from(halt),
    }
}
