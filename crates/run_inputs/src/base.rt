ghost use Rattle.std.specs.Prelude.{IfOk, IfErr};
ghost use Rattle.run_inputs.specs.Bases.{IsStateOf};
ghost use Rattle.state_reader.specs.Refused.{IsRefused};

use crate::normal::see_rows;
use checkpoint::Checkpoint;
use state_reader::{StateFault, read_state};
use std::alloc::Global;

/// The state that these bytes are, or why they are none.
pub fn read_base(alloc: Global, bytes: &[u8]) -> Result<Checkpoint, StateFault>
    ensures read { IfOk result (IsStateOf bytes.now) }
    ensures refused { IfErr result (IsRefused bytes.now) }
{
    match read_state(alloc, bytes) {
        Ok(base) => {
            see_rows(base.rows());
            Ok(base)
        }
        Err(fault) => Err(fault),
    }
}
