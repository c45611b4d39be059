//! With what a hub opens, and why it stops.
ghost use Rattle.std.specs.Prelude.{◌≡◌};
ghost use Rattle.hub_rule.specs.Stops.{code_of, cause_at};

/// How many seats a hub has, what was spent before it opened, and the limit of what is charged.
#[derive(Drop, Clone, Copy)]
pub struct Terms {
    pub seats: u32,
    pub spent: u64,
    pub limit: u64,
}

/// Why a hub stops.
#[derive(Debug, Drop, Clone, Copy, PartialEq, Eq)]
pub enum StopCause {
    /// An entry is a fault.
    Fault,
    /// Memory was wanting.
    NoMemory,
}

impl StopCause {
    /// The stop word of this cause.
    pub fn code(self) -> u64
        ensures { result ≡ code_of self }
    {
        match self {
            StopCause::NoMemory => 1,
            StopCause::Fault => 2,
        }
    }

    /// The cause of this stop word: none for 0.
    pub fn of_code(word: u64) -> Option<StopCause>
        ensures { result ≡ cause_at word }
    {
        match word {
            0 => None,
            1 => Some(StopCause::NoMemory),
            _ => Some(StopCause::Fault),
        }
    }
}
