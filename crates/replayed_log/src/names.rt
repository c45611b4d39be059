//! Of what a replay is.
ghost use Rattle.std.specs.Prelude.{List, []};
ghost use Rattle.calculus.specs.Log.{Step};
ghost use Rattle.calculus.specs.Runs.{Deploy};
ghost use Rattle.replayed_log.specs.Names.{no_deploy};

use std::marker::Brand;

/// A deploy and the steps of a log of it. Both are seen by contracts alone: the proof of the call that starts a replay
/// names them.
pub trait ReplayNames {
    // The prices, the limit, the rows of the checkpoint, the process and the source's digest.
    ghost deploy: { Deploy };

    // The steps of the log.
    ghost steps: { List Step };
}

impl ReplayNames for Brand {
    ghost deploy = { no_deploy };

    ghost steps = { [] };
}
