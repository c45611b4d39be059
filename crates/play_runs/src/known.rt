ghost use Rattle.std.specs.Prelude.{◌≡◌, ℕ};
ghost use Rattle.calculus.specs.Form.{IsClosed};
ghost use Rattle.calculus.specs.Unfolding.{Unfolds};
ghost use Rattle.play_runs.specs.Rooms.{least_room-prop, work_in, IsLeastRoom};

use name_seed::Seed;
use price_table::Prices;
use rho_term::Term;
use std::snapshot::Snapshot;

/// A process, with the seed, the prices and the cap that it is unfolded with. The least room in which it is known what it unfolds to
/// is seen by contracts alone, so that they can name what that is.
#[derive(Drop)]
pub struct KnownWork {
    pub prices: Prices,
    pub cap: u64,
    pub term: Snapshot<Term>,
    pub seed: Seed,
    pub ghost room: { (n : ℕ) × IsLeastRoom prices cap term.value seed n } by { least_room-prop prices cap term.value seed },
}

/// What a closed process unfolds to is known, since each does. Nothing is unfolded here.
pub fn known_work(term: &Term, seed: &Seed, prices: &Prices, cap: u64) -> KnownWork
    requires closed { IsClosed term.now }
    ensures { Unfolds prices.now cap term.now seed.now (work_in result.prices result.cap result.term.value result.seed result.room.0) }
{
    KnownWork {
        prices: *prices,
        cap,
        term: Snapshot::of(term),
        seed: *seed,
    }
}
