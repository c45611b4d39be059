// A step of what was found.
ghost use Rattle.std.specs.Prelude.{◌≡◌, ◌+◌, ◌≤◌, List, None, Some, IfOk, MatchBool};
ghost use Rattle.calculus.specs.Limits.{most_limit};
ghost use Rattle.calculus.specs.Rows.{Row as Stored};
ghost use Rattle.found_rows.specs.AtHand.{MeetsAtHand};
ghost use Rattle.play_draws.specs.Making.{IsAgain, IsReady};

use crate::counting::repeat_of;
use crate::means::Means;
use event_log::LogStep;
use found_rows::Found;
use name_seed::Seed;
use play_draws::making::Ready;
use play_hub::{MadeStep, PlayEntry};
use std::alloc::{AllocError, Global};
use std::snapshot::Snapshot;
use unfold::{line_of, work_body};

// How often a step was made, where nothing leaves by it; `repeat` is how often it was made before. More than a repeat number may tell is
// want of memory.
fn count_of(lasting: bool, repeat: u32) -> Result<Option<u32>, AllocError>
    ensures { IfOk result (λ o. MatchBool lasting (o ≡ Some (repeat + 1)) (o ≡ None)) }
{
    if !lasting {
        return Ok(None);
    }
    if repeat == u32::MAX {
        return Err(AllocError);
    }
    Ok(Some(repeat + 1))
}

/// The step of what was found, after these entries on its operation. Want of memory is the one error.
pub(crate) fn make_ready(
    alloc: Global,
    means: Means,
    found: Found,
    took: &[(u64, PlayEntry)],
    again: Option<u32>,
) -> Result<Ready, AllocError>
    requires limit { means.limit ≤ most_limit means.prices.now }
    requires found { (all : List Stored) × (o : Stored) × MeetsAtHand all o found }
    requires again { IsAgain took.now again }
    ensures { IfOk result (IsReady means.entry.prices.now means.entry.limit found took.now) }
{
    let comm = means.prices.comm();
    let repeat = repeat_of(took, again, &found)?;
    let seed = Seed::comm(&found.cont, found.taken.as_slice(), repeat);
    let worked = work_body(
        alloc,
        &found.body,
        found.bound.as_slice(),
        &seed,
        means.prices,
        means.limit,
    )?;
    let count = worked.offers.len();
    if count >= 144_115_188_075_855_872 {
        return Err(AllocError);
    }
    let line = line_of(alloc, &found)?;
    let again = count_of(found.lasting, repeat)?;
    let gone = Snapshot::of(&found.gone);
    let offers = Snapshot::of(&worked.offers);
    let step = LogStep {
        cont: found.cont,
        taken: found.taken,
        repeat,
    };
    let made = MadeStep {
        step,
        gone,
        offers,
        price: comm + worked.price,
        fault: worked.fault,
        line,
    };
    Ok(Ready {
        made,
        gone: found.gone,
        offers: worked.offers,
        again,
    })
}
