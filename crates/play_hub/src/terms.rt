//! From what a play is made.
ghost use Rattle.calculus.specs.Runs.{Deploy, Work};
ghost use Rattle.play_hub.specs.Values.{no_deploy, no_work};

use std::marker::Brand;

/// A deploy, and the work that its source comes to. Both are seen by contracts alone: the proof of the call that starts a play
/// names them.
pub trait PlayTerms {
    // The prices, the limit, the rows of the checkpoint, the process and the source's digest.
    ghost deploy: { Deploy };

    // What the source comes to.
    ghost source: { Work };
}

impl PlayTerms for Brand {
    ghost deploy = { no_deploy };

    ghost source = { no_work };
}
