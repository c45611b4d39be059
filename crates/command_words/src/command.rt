ghost use Rattle.std.specs.Prelude.{◌≡◌};
ghost use Rattle.command_words.specs.Arguments.{verb_of};
ghost use Rattle.command_words.specs.Commands.{needed, untaken};

use crate::argument::Argument;

/// What `rho` is asked to do.
#[derive(Clone, Copy, Debug, PartialEq, Eq)]
pub enum Verb {
    Genesis,
    Deploy,
    Replay,
    Inspect,
    Workload,
}

impl Verb {
    /// The verb that a text names.
    pub fn from_name(name: &str) -> Option<Verb>
        ensures { result ≡ verb_of name.now }
    {
        match name {
            "genesis" => Some(Verb::Genesis),
            "deploy" => Some(Verb::Deploy),
            "replay" => Some(Verb::Replay),
            "inspect" => Some(Verb::Inspect),
            "workload" => Some(Verb::Workload),
            _ => None,
        }
    }

    // What the verb needs, in the order in which faults are told.
    pub(crate) fn needed(self) -> &'static [Argument]
        ensures { result.now ≡ needed self }
    {
        match self {
            Verb::Genesis | Verb::Inspect => FILE.as_slice(),
            Verb::Deploy => NEEDED_BY_DEPLOY.as_slice(),
            Verb::Replay => NEEDED_BY_REPLAY.as_slice(),
            Verb::Workload => NEEDED_BY_WORKLOAD.as_slice(),
        }
    }

    // What the verb does not take, in the order in which faults are told.
    pub(crate) fn untaken(self) -> &'static [Argument]
        ensures { result.now ≡ untaken self }
    {
        match self {
            Verb::Genesis | Verb::Inspect => OPTIONS.as_slice(),
            Verb::Deploy => NOT_OF_DEPLOY.as_slice(),
            Verb::Replay => NOT_OF_REPLAY.as_slice(),
            Verb::Workload => NOT_OF_WORKLOAD.as_slice(),
        }
    }
}

static FILE: [Argument; 1] = [Argument::File];

static NEEDED_BY_DEPLOY: [Argument; 6] = [
    Argument::File,
    Argument::State,
    Argument::Prices,
    Argument::Limit,
    Argument::Log,
    Argument::Next,
];

static NEEDED_BY_REPLAY: [Argument; 5] = [
    Argument::File,
    Argument::State,
    Argument::Prices,
    Argument::Log,
    Argument::Next,
];

static NEEDED_BY_WORKLOAD: [Argument; 2] = [Argument::Log, Argument::Steps];

static OPTIONS: [Argument; 7] = [
    Argument::State,
    Argument::Prices,
    Argument::Limit,
    Argument::Log,
    Argument::Next,
    Argument::Workers,
    Argument::Steps,
];

static NOT_OF_DEPLOY: [Argument; 1] = [Argument::Steps];

static NOT_OF_REPLAY: [Argument; 2] = [Argument::Limit, Argument::Steps];

static NOT_OF_WORKLOAD: [Argument; 5] = [
    Argument::File,
    Argument::State,
    Argument::Prices,
    Argument::Limit,
    Argument::Next,
];

/// The run of a source, as a deploy or as a replay: what both take.
#[derive(Drop)]
pub struct Run {
    /// The name of the source.
    pub file: String,
    /// The name of the state that the run begins with.
    pub state: String,
    /// The name of the prices.
    pub prices: String,
    /// The name of the log: a deploy keeps it, and a replay reads it.
    pub log: String,
    /// The name under which the next state is kept. It is not that of the log.
    pub next: String,
    /// How many workers run: 1 to 32.
    pub workers: u32,
}

/// A run and a replay of made input.
#[derive(Drop)]
pub struct Workload {
    /// The name under which the log is kept.
    pub log: String,
    /// How many workers run: 1 to 32.
    pub workers: u32,
    /// How many steps the made input takes: 4 to 200,000.
    pub steps: u32,
}

/// What the words ask for: each verb with what it takes, and nothing else.
#[derive(Drop)]
pub enum Command {
    /// The empty state is kept under the name `file`.
    Genesis { file: String },
    /// A source is run, and may cost `limit` at most.
    Deploy { run: Run, limit: u64 },
    /// The log of a source is run again.
    Replay(Run),
    /// The state under the name `file` is printed.
    Inspect { file: String },
    Workload(Workload),
}
