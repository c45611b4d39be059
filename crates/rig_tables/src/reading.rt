//! Logs.
ghost use Rattle.std.specs.Prelude.{IfOk};
ghost use Rattle.event_log.specs.View.{IsWritable};

use event_log::{Log, LogFault, read_log};
use std::alloc::Global;
use table_lines::{LineFault, hex_bytes};

/// The log that hexadecimal digits spell.
pub fn read_digits(alloc: Global, digits: &str) -> Result<Log, LineFault>
    ensures { IfOk result IsWritable }
{
    let bytes = hex_bytes(alloc, digits)?;
    match read_log(alloc, bytes.as_slice()) {
        Ok(log) => Ok(log),
        Err(LogFault::NoMemory) => Err(LineFault::NoMemory),
        Err(_) => Err(LineFault::Field),
    }
}
