ghost use Rattle.std.specs.Prelude.{◌≡◌, ◌++◌, ◌≤◌, length, map, All, OnOk, IfOk};
ghost use Rattle.calculus.specs.Bytes.{be32, be64, joined};
ghost use Rattle.calculus.specs.Log.{header_text, step_text};
ghost use Rattle.event_log.specs.View.{header_of, step_of, text_of, TakesInRange, IsWritable};

use crate::log::{Log, LogHeader, LogStep};
use calculus::Digest;
use std::alloc::{AllocError, Global};

/// The version of a log's text, after its name.
const VERSION: u8 = 0x01;

/// The number as four bytes, the high one first.
fn four_bytes(n: u32) -> [u8; 4]
    ensures { result ≡ be32 n }
{
    n.to_be_bytes()
}

/// The number as eight bytes, the high one first.
fn eight_bytes(n: u64) -> [u8; 8]
    ensures { result ≡ be64 n }
{
    n.to_be_bytes()
}

/// Appends the text of a header.
fn write_header(bytes: &mut Vec<u8>, header: &LogHeader) -> Result<(), AllocError>
    ensures { OnOk result (bytes.new.items ≡ bytes.old.items ++ header_text (header_of header.now)) }
{
    bytes.extend_from_slice(b"RHOLOG")?;
    bytes.push(VERSION)?;
    bytes.extend_from_slice(&header.base.0)?;
    bytes.extend_from_slice(&header.source.0)?;
    bytes.extend_from_slice(&header.prices.0)?;
    bytes.extend_from_slice(&eight_bytes(header.limit))
}

/// Appends these ids.
fn write_ids(bytes: &mut Vec<u8>, ids: &[Digest]) -> Result<(), AllocError>
    ensures { OnOk result (bytes.new.items ≡ bytes.old.items ++ joined (map (λ id. id.0) ids.now)) }
{
    for id in ids {
        bytes.extend_from_slice(&id.0)?;
    }
    Ok(())
}

/// Appends the text of a step.
fn write_step(bytes: &mut Vec<u8>, step: &LogStep) -> Result<(), AllocError>
    requires { TakesInRange step.now }
    ensures { OnOk result (bytes.new.items ≡ bytes.old.items ++ step_text (step_of step.now)) }
{
    bytes.extend_from_slice(&step.cont.0)?;
    bytes.push(step.taken.len() as u8)?;
    write_ids(bytes, step.taken.as_slice())?;
    bytes.extend_from_slice(&four_bytes(step.repeat))
}

/// Appends the texts of these steps.
fn write_steps(bytes: &mut Vec<u8>, steps: &[LogStep]) -> Result<(), AllocError>
    requires { All TakesInRange steps.now }
    ensures { OnOk result (bytes.new.items ≡ bytes.old.items ++ joined (map step_text (map step_of steps.now))) }
{
    for step in steps {
        write_step(bytes, step)?;
    }
    Ok(())
}

/// Gives the text of a log in version 1: its header of 115 bytes, the number of steps among them, and then for each
/// step 37 bytes and 32 for each of its data.
///
/// The only error is want of memory.
pub fn write_log(alloc: Global, log: &Log) -> Result<Vec<u8>, AllocError>
    requires { IsWritable log.now }
    ensures { IfOk result (λ bytes. bytes.items ≡ text_of log.now) }
{
    let mut bytes = Vec::new(alloc);
    write_header(&mut bytes, &log.header)?;
    bytes.extend_from_slice(&four_bytes(log.steps.len() as u32))?;
    write_steps(&mut bytes, log.steps.as_slice())?;
    Ok(bytes)
}
