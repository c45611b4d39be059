// How often a step was made before.
ghost use Rattle.std.specs.Prelude.{◌≡◌, IfOk};
ghost use Rattle.found_rows.specs.Making.{times_made};
ghost use Rattle.play_draws.specs.Making.{is_like, steps_drawn, IsAgain, IsRightNumber};

use found_rows::Found;
use play_hub::PlayEntry;
use std::alloc::AllocError;

// Whether an entry's step has the receiver and the data of what was found.
fn is_like(entry: &PlayEntry, found: &Found) -> bool
    ensures { result ≡ is_like found.now entry.now }
{
    match &entry.made {
        None => false,
        Some(made) => found.cont == made.step.cont && found.taken == made.step.taken,
    }
}

// How many of these entries have a step like that of what was found. More than a repeat number may tell is want of memory.
fn count_steps(took: &[(u64, PlayEntry)], found: &Found) -> Result<u32, AllocError>
    ensures { IfOk result (λ n. n ≡ times_made found.now (steps_drawn took.now)) }
{
    let mut count = 0u32;
    for pair in took {
        if is_like(&pair.1, found) {
            if count == u32::MAX {
                return Err(AllocError);
            }
            count += 1;
        }
    }
    Ok(count)
}

/// The repeat number of the step of what was found, after these entries on its operation: how often it was made, and 0 where something
/// leaves, since such a step is made once. `again` tells how often the last entry's step was made. A number past 2^32 is want of memory.
pub(crate) fn repeat_of(
    took: &[(u64, PlayEntry)],
    again: Option<u32>,
    found: &Found,
) -> Result<u32, AllocError>
    requires { IsAgain took.now again }
    ensures { IfOk result (IsRightNumber (steps_drawn took.now) found.now) }
{
    if !found.lasting {
        return Ok(0);
    }
    if let (Some(count), Some(last)) = (again, took.last()) {
        if is_like(&last.1, found) {
            return Ok(count);
        }
    }
    count_steps(took, found)
}
