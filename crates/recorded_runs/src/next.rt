// The next state of a run.
ghost use Rattle.std.specs.Prelude.{◌≡◌, ◌≢◌, IfOk};
ghost use Rattle.calculus.specs.Root.{root};
ghost use Rattle.recorded_runs.specs.Runs.{printed};
ghost use Rattle.replays.specs.View.{verdict_of};
ghost use Rattle.events.specs.States.{state_text};

use calculus::Digest;
use next_states::{KnownState, MadeState};
use replays::Verdict;
use space_row::Row;
use std::alloc::{AllocError, Global};

/// What is printed: the output of a run that is done, and nothing else.
pub fn printed(verdict: Verdict, mut output: Vec<u8>) -> Vec<u8>
    ensures { result.items ≡ printed (verdict_of verdict) output.items }
{
    match verdict {
        Verdict::Done => {}
        _ => output.clear(),
    }
    output
}

/// The root and the bytes of the next state: those of these rows where the run is done, and else the old ones.
pub fn next_state(
    alloc: Global,
    verdict: Verdict,
    rows: Vec<Row>,
    base: &Digest,
    state: KnownState,
) -> Result<(Digest, Vec<u8>), AllocError>
    ensures done { verdict ≡ Verdict.Done → IfOk result (λ next. (next.0.0 ≡ root rows.items) × (next.1.items ≡ state_text rows.items)) }
    ensures old { verdict ≢ Verdict.Done → IfOk result (λ next. (next.0.0 ≡ base.now.0) × (next.1.items ≡ state)) }
{
    match verdict {
        Verdict::Done => {
            let MadeState { root, text, .. } = state.next_state(alloc, rows)?;
            Ok((root, text))
        }
        _ => Ok((*base, state.into_text())),
    }
}
