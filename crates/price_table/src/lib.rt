//! Prices of work, their digest, and the greatest limit under them; and what work comes to under a cap: a result at its price, or why
//! there is none.
#![tactic(auto)]

pub mod budget;
pub mod stop;

ghost use Rattle.std.specs.Prelude.{◌≡◌, ◌≤◌, ◌<◌, ◌^◌};
ghost use Rattle.calculus.specs.Bytes.{be64};
ghost use Rattle.calculus.specs.Limits.{price_digest, most_limit as greatest_limit};
ghost use Rattle.price_table.specs.Listed.{AreInRange, prices_listed};

pub use budget::Budget;
use calculus::Digest;
use sha2::{Digest as _, Sha256};
use std::marker::Model;
pub use stop::{EvalStop, Priced};

/// Seven prices, in the order in which a digest takes them.
#[derive(Clone, Copy, Debug, PartialEq, Eq)]
pub struct PriceList {
    pub comm: u64,
    pub send: u64,
    pub receive: u64,
    pub name: u64,
    pub cases: u64,
    pub op: u64,
    pub byte: u64,
}

/// What work costs: a step, an offered send or receive, a declared name, a case, an operator or method,
/// and each byte of what is offered or worked on. Each price is at most 1,000,000, and that of a step at
/// least 1.
///
/// A contract sees the seven prices.
#[derive(Clone, Copy, Debug, PartialEq, Eq)]
pub struct Prices {
    list: PriceList,
}

impl Model for Prices {
    ghost use Rattle.calculus.specs.Outcome.{Prices};
    ghost use Rattle.price_table.specs.Listed.{AreInRange, list_of, prices_listed};

    ghost Value = { Prices };

    ghost view = { λ p. prices_listed p.list };

    ghost inverse = { λ p. record { list = list_of p } };

    ghost invariant = { λ p. AreInRange p.list };
}

/// The greatest number of steps that a limit may pay for.
const MOST_STEPS: u64 = 1_048_576;

/// The greatest limit of a deploy under these prices: as many steps as a limit may pay for.
pub fn most_limit(prices: &Prices) -> u64
    ensures limit { result ≡ greatest_limit prices.now }
    ensures some { 1 ≤ result }
{
    prices.list.comm * MOST_STEPS
}

impl Prices {
    /// The standard prices: 10 for a step, 3 for a send, 4 for a receive, 2 for a
    /// name, 1 for a case, 1 for an operator or method, and nothing for bytes.
    pub fn standard() -> Prices
        ensures { result ≡ record { comm = 10; send = 3; receive = 4; name = 2; case = 1; op = 1; byte = 0 } }
    {
        Prices::new(PriceList {
            comm: 10,
            send: 3,
            receive: 4,
            name: 2,
            cases: 1,
            op: 1,
            byte: 0,
        })
    }

    /// These prices, each at most 1,000,000 and that of a step at least 1.
    pub fn new(list: PriceList) -> Prices
        requires { AreInRange list }
        ensures { result ≡ prices_listed list }
    {
        Prices { list }
    }

    /// The price of a step.
    pub fn comm(&self) -> u64
        ensures price { result ≡ self.now.comm }
        ensures some { 1 ≤ result }
        ensures most { result ≤ 1000000 }
    {
        self.list.comm
    }

    /// The price of a send that is offered.
    pub fn send(&self) -> u64
        ensures price { result ≡ self.now.send }
        ensures most { result ≤ 1000000 }
    {
        self.list.send
    }

    /// The price of a receive that is offered.
    pub fn receive(&self) -> u64
        ensures price { result ≡ self.now.receive }
        ensures most { result ≤ 1000000 }
    {
        self.list.receive
    }

    /// The price of each name that a `new` declares.
    pub fn name(&self) -> u64
        ensures price { result ≡ self.now.name }
        ensures most { result ≤ 1000000 }
    {
        self.list.name
    }

    /// The price of a case that is tried.
    pub fn cases(&self) -> u64
        ensures price { result ≡ self.now.case }
        ensures most { result ≤ 1000000 }
    {
        self.list.cases
    }

    /// The price of an operator or a method.
    pub fn op(&self) -> u64
        ensures price { result ≡ self.now.op }
        ensures most { result ≤ 1000000 }
    {
        self.list.op
    }

    /// The price of each byte of what is offered or worked on.
    pub fn byte(&self) -> u64
        ensures price { result ≡ self.now.byte }
        ensures most { result ≤ 1000000 }
    {
        self.list.byte
    }

    /// SHA-256 of the seven prices in order, as eight bytes each, the high one first.
    pub fn digest(&self) -> Digest
        ensures { result.0 ≡ price_digest self.now }
    {
        let mut hasher = Sha256::new();
        hasher.update(&eight_bytes(self.list.comm));
        hasher.update(&eight_bytes(self.list.send));
        hasher.update(&eight_bytes(self.list.receive));
        hasher.update(&eight_bytes(self.list.name));
        hasher.update(&eight_bytes(self.list.cases));
        hasher.update(&eight_bytes(self.list.op));
        hasher.update(&eight_bytes(self.list.byte));
        Digest(hasher.finalize())
    }
}

/// A number as eight bytes, the high one first.
fn eight_bytes(number: u64) -> [u8; 8]
    ensures { result ≡ be64 number }
{
    number.to_be_bytes()
}
