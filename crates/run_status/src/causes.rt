// The causes that a verb hands on by `?`: each has its status, and want of memory has one of its own.
ghost use Rattle.std.specs.Prelude.{◌≡◌};
ghost use Rattle.input_faults.specs.Refusals.{refusal_of as source_refusal};
ghost use Rattle.replays.specs.Refusals.{refusal_of as replay_refusal};
ghost use Rattle.run_status.specs.Statuses.{price_refusal, status_of_halt, LogStatusOf, PriceStatusOf, ReplayStatusOf, SourceStatusOf, StateStatusOf};
ghost use Rattle.run_status.specs.declared.status.Status.TheVariants.{NoMemory};

use crate::status::Status;
use event_log::LogFault;
use input_faults::{ParseFault, ScopeFault, SourceFault, StateFault};
use phlo_meter::PriceFault;
use replays::ReplayFault;
use rho_lexer::LexFault;
use run_reports::Halt;
use std::alloc::AllocError;

impl From<AllocError> for Status {
    ghost from_gives = { λ _ s. s ≡ NoMemory };

    fn from(_error: AllocError) -> Self {
        Status::NoMemory
    }
}

impl From<Halt> for Status {
    ghost from_gives = { λ halt s. s ≡ status_of_halt halt };

    fn from(halt: Halt) -> Self {
        match halt {
            Halt::WriteFault => Status::WriteFault,
            Halt::NoMemory => Status::NoMemory,
        }
    }
}

impl From<StateFault> for Status {
    ghost from_gives = { λ fault s. StateStatusOf fault s };

    fn from(fault: StateFault) -> Self {
        match fault {
            StateFault::NoMemory => Status::NoMemory,
            fault => Status::State(fault),
        }
    }
}

impl From<LogFault> for Status {
    ghost from_gives = { λ fault s. LogStatusOf fault s };

    fn from(fault: LogFault) -> Self {
        match fault {
            LogFault::NoMemory => Status::NoMemory,
            fault => Status::Log(fault),
        }
    }
}

impl From<PriceFault> for Status {
    ghost from_gives = { λ fault s. PriceStatusOf fault (price_refusal fault) s };

    fn from(fault: PriceFault) -> Self {
        match fault {
            PriceFault::NoMemory => Status::NoMemory,
            fault => Status::Prices(fault),
        }
    }
}

impl From<SourceFault> for Status {
    ghost from_gives = { λ fault s. SourceStatusOf fault (source_refusal fault) s };

    fn from(fault: SourceFault) -> Self {
        match fault {
            SourceFault::Lex(LexFault::NoMemory) => Status::NoMemory,
            SourceFault::Parse(ParseFault::NoMemory) => Status::NoMemory,
            SourceFault::Scope(ScopeFault::NoMemory) => Status::NoMemory,
            fault => Status::Source(fault),
        }
    }
}

impl From<ReplayFault> for Status {
    ghost from_gives = { λ fault s. ReplayStatusOf fault (replay_refusal fault) s };

    fn from(fault: ReplayFault) -> Self {
        match fault {
            ReplayFault::NoMemory => Status::NoMemory,
            fault => Status::Replay(fault),
        }
    }
}
