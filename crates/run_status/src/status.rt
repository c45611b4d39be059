ghost use Rattle.std.specs.Prelude.{◌≡◌, IfOk, string_bytes};
ghost use Rattle.run_status.specs.Endings.{status_of};
ghost use Rattle.run_status.specs.Message.{code_of, message_of};

use crate::wording::{log_text, price_text, replay_text, source_text, state_text, usage_text};
use command_words::Usage;
use event_log::LogFault;
use input_faults::{SourceFault, StateFault};
use phlo_meter::PriceFault;
use replays::{ReplayFault, Verdict};
use std::alloc::{AllocError, Global};
use std::fmt;

/// A file that a verb reads.
#[derive(Clone, Copy, Debug, PartialEq, Eq)]
pub enum Input {
    State,
    Prices,
    Source,
    /// The log that a replay reads.
    Log,
}

/// How a call of `run` ended.
#[derive(Debug, Drop, PartialEq, Eq)]
pub enum Status {
    /// The verdict is Done.
    Done,
    /// The words are refused. Want of memory is no such fault.
    Usage(Usage),
    /// An input could not be read.
    ReadFault { input: Input },
    /// A file could not be kept, or the report not be put.
    WriteFault,
    /// The bytes of the state are refused. Want of memory is no such fault.
    State(StateFault),
    /// The source is refused. Want of memory is no such fault.
    Source(SourceFault),
    /// The price text is refused. Want of memory is no such fault.
    Prices(PriceFault),
    /// The limit is 0 or above the greatest one under the prices, `most`.
    Limit { limit: u64, most: u64 },
    /// The bytes of the log are refused. Want of memory is no such fault.
    Log(LogFault),
    /// The log is refused as that of a run. Want of memory is no such fault.
    Replay(ReplayFault),
    /// The verdict is Exhausted: the price passed the limit.
    Exhausted,
    /// The verdict is Faulted: the source or a body has a fault.
    Faulted,
    /// Memory is wanted.
    NoMemory,
    /// An input has more than `max` bytes, its limit: at least `seen`.
    TooLarge { input: Input, seen: u64, max: u64 },
}

impl fmt::Display for Input {
    ghost use Rattle.std.specs.Prelude.{Some};
    ghost use Rattle.run_status.specs.Message.{input_name};

    ghost output = { λ input. Some (input_name input) };

    fn fmt<W: fmt::Write>(&self, f: &mut fmt::Formatter<W>) -> fmt::Result {
        match self {
            Input::State => f.write_str("state"),
            Input::Prices => f.write_str("prices"),
            Input::Source => f.write_str("source"),
            Input::Log => f.write_str("log"),
        }
    }
}

impl Status {
    /// The exit status of the program: 0 for Done, and one number for each other end.
    pub fn code(&self) -> u8
        ensures { result ≡ code_of self.now }
    {
        match self {
            Status::Done => 0,
            Status::Usage(_) => 2,
            Status::ReadFault { .. } => 3,
            Status::WriteFault => 4,
            Status::State(_) => 5,
            Status::Source(_) => 6,
            Status::Prices(_) | Status::Limit { .. } => 7,
            Status::Log(_) => 8,
            Status::Replay(_) => 9,
            Status::Exhausted => 10,
            Status::Faulted => 11,
            Status::NoMemory => 12,
            Status::TooLarge { .. } => 13,
        }
    }

    /// The line for standard error, without its line feed; empty where the report says all.
    pub fn message(&self, alloc: Global) -> Result<Vec<u8>, AllocError>
        ensures { IfOk result (λ line. line.items ≡ message_of self.now) }
    {
        Ok(self.message_text(alloc)?.into_bytes())
    }

    fn message_text(&self, alloc: Global) -> Result<String, AllocError>
        ensures { IfOk result (λ line. string_bytes line ≡ message_of self.now) }
    {
        match self {
            Status::Done | Status::Exhausted | Status::Faulted => Ok(String::new(alloc)),
            Status::Usage(fault) => {
                let fault = usage_text(alloc, fault)?;
                format!(in alloc; "rho: usage: {fault}")
            }
            Status::ReadFault { input } => format!(in alloc; "rho: read: ReadFault input={input}"),
            Status::WriteFault => String::from_str(alloc, "rho: write: WriteFault"),
            Status::State(fault) => {
                let fault = state_text(alloc, fault)?;
                format!(in alloc; "rho: state: {fault}")
            }
            Status::Source(fault) => {
                let fault = source_text(alloc, fault)?;
                format!(in alloc; "rho: source: {fault}")
            }
            Status::Prices(fault) => {
                let fault = price_text(alloc, fault)?;
                format!(in alloc; "rho: prices: {fault}")
            }
            Status::Limit { limit, most } => {
                format!(in alloc; "rho: prices: Limit limit={limit} most={most}")
            }
            Status::Log(fault) => {
                let fault = log_text(alloc, fault)?;
                format!(in alloc; "rho: log: {fault}")
            }
            Status::Replay(fault) => {
                let fault = replay_text(alloc, fault)?;
                format!(in alloc; "rho: replay: {fault}")
            }
            Status::NoMemory => String::from_str(alloc, "rho: memory: NoMemory"),
            Status::TooLarge { input, seen, max } => {
                format!(in alloc; "rho: size: TooLarge input={input} seen={seen} max={max}")
            }
        }
    }
}

/// The status that a verdict gives.
pub fn status_of(verdict: Verdict) -> Status
    ensures { result ≡ status_of verdict }
{
    match verdict {
        Verdict::Done => Status::Done,
        Verdict::Exhausted => Status::Exhausted,
        Verdict::Faulted { .. } => Status::Faulted,
    }
}
