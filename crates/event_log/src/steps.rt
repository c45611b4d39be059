// Nothing is done here: each call tells what the types of its arguments tell.
ghost use Rattle.std.specs.Prelude.{◌≡◌, ◌<◌, ◌^◌, map, length, All};
ghost use Rattle.event_log.specs.Laws.{IsStep, AreSteps, IsId};
ghost use Rattle.event_log.specs.View.{step_of, TakesInRange};
ghost use Rattle.event_log.specs.Known.{HasIdBytes};

use crate::LogStep;
use calculus::Digest;

fn has_32_bytes(bytes: &[u8; 32])
    ensures { length bytes.now ≡ 32 }
{}

fn has_four_bytes(n: u32)
    ensures { n < 2 ^ 32 }
{}

fn is_id(id: &Digest)
    ensures { IsId id.now.0 }
{
    has_32_bytes(&id.0);
}

fn are_ids(ids: &[Digest])
    ensures { All HasIdBytes ids.now }
{
    for id in ids {
        is_id(id);
    }
}

fn is_step(step: &LogStep)
    requires { TakesInRange step.now }
    ensures { IsStep (step_of step.now) }
{
    is_id(&step.cont);
    are_ids(step.taken.as_slice());
    has_four_bytes(step.repeat);
}

/// Steps that take as many data as a step may fit the text of a log: their ids have 32 bytes and their repeat numbers four. The call
/// does nothing.
pub fn steps_are_readable(steps: &[LogStep])
    requires { All TakesInRange steps.now }
    ensures { AreSteps (map step_of steps.now) }
{
    for step in steps {
        is_step(step);
    }
}
