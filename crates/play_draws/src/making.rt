//! A step, ready to be drawn, and what makes it.
ghost use Rattle.std.specs.Prelude.{◌≤◌, ℕ, List, IfOk};
ghost use Rattle.calculus.specs.Limits.{most_limit};
ghost use Rattle.calculus.specs.Outcome.{Prices};
ghost use Rattle.calculus.specs.Rows.{Row as Stored};
ghost use Rattle.found_rows.specs.AtHand.{MeetsAtHand};
ghost use Rattle.play_draws.specs.Making.{IsAgain, IsReady};

use calculus::Digest;
use found_rows::Found;
use play_hub::{MadeStep, PlayEntry};
use space_row::Row;
use std::alloc::{AllocError, Global};

/// A step that an operation makes, before it is drawn.
#[derive(Drop)]
pub struct Ready {
    pub made: MadeStep,
    /// The ids of the rows that leave.
    pub gone: Vec<Digest>,
    /// What the body offers.
    pub offers: Vec<Row>,
    /// How often the step was made once it is drawn, where nothing leaves by it.
    pub again: Option<u32>,
}

/// What makes steps, by the prices and the limit of a deploy.
pub trait StepMaker {
    // The prices.
    ghost prices: { Self → Prices };

    // The limit.
    ghost limit: { Self → ℕ };

    /// The step of what was found, after these entries on its operation. `again` tells how often the last entry's step was made. Want of
    /// memory is the one error.
    fn make(
        &self,
        alloc: Global,
        found: Found,
        took: &[(u64, PlayEntry)],
        again: Option<u32>,
    ) -> Result<Ready, AllocError>
        requires limit { limit self.now ≤ most_limit (prices self.now) }
        requires found { (all : List Stored) × (o : Stored) × MeetsAtHand all o found }
        requires again { IsAgain took.now again }
        ensures { IfOk result (IsReady (prices self.now) (limit self.now) found took.now) };
}
