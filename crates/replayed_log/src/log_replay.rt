//! A log that is replayed.
ghost use Rattle.std.specs.Prelude.{◌≡◌};

use event_log::Log;
use price_table::Prices;
use replay_space::Rig;
use std::marker::PhantomData;

/// A log that is replayed: its steps, what is kept of it, the prices, and the limit of each body's price. `N` says of what
/// it is the log, and `U` unfolds its steps.
#[derive(Drop)]
pub struct LogReplay<N, U> {
    pub log: Log,
    pub rig: Rig,
    pub prices: Prices,
    pub limit: u64,
    pub(crate) names: PhantomData<N>,
    pub(crate) unfolder: PhantomData<U>,
}

impl<N, U> LogReplay<N, U> {
    /// The log with these.
    pub fn new(log: Log, rig: Rig, prices: Prices, limit: u64) -> LogReplay<N, U>
        ensures log { result.log ≡ log }
        ensures rig { result.rig ≡ rig }
        ensures prices { result.prices ≡ prices }
        ensures limit { result.limit ≡ limit }
    {
        LogReplay {
            log,
            rig,
            prices,
            limit,
            names: PhantomData,
            unfolder: PhantomData,
        }
    }
}
