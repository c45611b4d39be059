// By what work is charged.
ghost use Rattle.std.specs.Prelude.{◌≡◌, ◌≤◌, ◌<◌, ◌+◌, ◌-◌, ◌^◌, MatchResult};

use crate::Prices;
use crate::stop::EvalStop;

/// By what work is charged: the prices, the cap, and the price so far, which does not pass the cap.
#[derive(Clone, Copy)]
pub struct Budget<'a> {
    pub prices: &'a Prices,
    pub cap: u64,
    pub price: u64,
    pub ghost below: { cap < 2 ^ 64 - 1 },
    pub ghost fits: { price ≤ cap },
}

impl Budget<'_> {
    /// The price so far and this cost, where they do not pass the cap.
    pub fn charge(self, cost: u64) -> Result<u64, EvalStop>
        ensures { MatchResult result (λ n. (n ≡ self.entry.price + cost) × (n ≤ self.entry.cap))
            (λ e. (e ≡ EvalStop.Over) × (self.entry.cap < self.entry.price + cost)) }
    {
        let total = self.price.saturating_add(cost);
        if total > self.cap {
            return Err(EvalStop::Over);
        }
        Ok(total)
    }
}
