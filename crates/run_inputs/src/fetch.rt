// The state, the prices and the limit, which a source follows.
ghost use Rattle.std.specs.Prelude.{◌≡◌, ◌≤◌, Ok, IfOk, IfErr, length};
ghost use Rattle.calculus.specs.Limits.{most_limit as greatest_limit};
ghost use Rattle.rho_outside.specs.FileMap.{Gives};
ghost use Rattle.rho_outside.specs.Told.{Told};
ghost use Rattle.command_words.specs.Answers.{run_of};
ghost use Rattle.run_inputs.specs.Inputs.{priced, accepted_state, accepted_prices, accepted_limit};
ghost use Rattle.run_inputs.specs.Given.{IsBase};
ghost use Rattle.run_inputs.specs.Refused.{InputCause, PriceCause, PricesRefusedFor, RefusedFor, StateCause};
ghost use Rattle.run_inputs.specs.Runnable.{HasState};

use crate::read_base;
use checkpoint::Checkpoint;
use command_words::Run;
use phlo_meter::read_prices;
use price_table::{Prices, most_limit};
use rho_outside::{FetchFault, Shelf};
use run_status::{Input, Status};
use std::alloc::Global;

/// The greatest number of bytes of a state and of a price text.
const STATE_MAX: u64 = 268_435_456;

const PRICES_MAX: u64 = 65_536;

/// The state that a run starts from: its text, and the rows that it holds.
#[derive(Drop)]
pub struct Base {
    pub text: Vec<u8>,
    pub checkpoint: Checkpoint,
}

/// The bytes of one input, at most `max` of them.
pub(crate) fn take<S: Shelf>(
    alloc: Global,
    shelf: &mut S,
    name: &str,
    input: Input,
    max: u64,
) -> Result<Vec<u8>, Status>
    ensures files { S.files shelf.new ≡ S.files shelf.old }
    ensures keep_faults { S.keep_faults shelf.new ≡ S.keep_faults shelf.old }
    ensures fetch_faults { S.fetch_faults shelf.old ≤ S.fetch_faults shelf.new }
    ensures taken { IfOk result (λ bytes. Gives (S.files shelf.old) name.now bytes.items) }
    ensures within { IfOk result (λ bytes. length bytes.items ≤ max) }
    ensures cause { IfErr result (InputCause (S.files shelf.old) name.now max input (S.fetch_faults shelf.old) (S.fetch_faults shelf.new)) }
{
    match shelf.fetch(alloc, name, max) {
        Ok(bytes) => Ok(bytes),
        Err(FetchFault::Missing | FetchFault::Failed) => Err(Status::ReadFault { input }),
        Err(FetchFault::TooLarge { seen }) => Err(Status::TooLarge { input, seen, max }),
        Err(FetchFault::NoMemory) => Err(Status::NoMemory),
    }
}

/// The state whose text these bytes are.
fn base_of(alloc: Global, text: Vec<u8>) -> Result<Base, Status>
    ensures text { IfOk result (λ base. base.text.items ≡ text.items) }
    ensures state { IfOk result IsBase }
    ensures cause { IfErr result (StateCause text.items) }
{
    let checkpoint = read_base(alloc, text.as_slice())?;
    Ok(Base { text, checkpoint })
}

/// Fetches and checks the state.
fn accept_state<S: Shelf>(alloc: Global, shelf: &mut S, run: &Run) -> Result<Base, Status>
    ensures files { S.files shelf.new ≡ S.files shelf.old }
    ensures keep_faults { S.keep_faults shelf.new ≡ S.keep_faults shelf.old }
    ensures fetch_faults { S.fetch_faults shelf.old ≤ S.fetch_faults shelf.new }
    ensures accepted { IfOk result (λ base. Told (S.files shelf.old)
        (λ files. accepted_state (run_of run.now) files ≡ Ok base.text.items)) }
    ensures state { IfOk result IsBase }
    ensures refused { IfErr result (PricesRefusedFor (S.files shelf.old) (run_of run.now) (S.fetch_faults shelf.old)
        (S.fetch_faults shelf.new)) }
{
    let text = take(alloc, shelf, run.state.as_str(), Input::State, STATE_MAX)?;
    base_of(alloc, text)
}

/// The prices that a text gives.
fn prices_in(alloc: Global, text: &[u8]) -> Result<Prices, Status>
    ensures prices { IfOk result (λ prices. priced text.now ≡ Ok prices) }
    ensures refused { IfErr result (PriceCause text.now) }
{
    Ok(read_prices(alloc, text)?)
}

/// Fetches and checks the prices, after the state. Gives the state with them.
pub(crate) fn accept_prices<S: Shelf>(
    alloc: Global,
    shelf: &mut S,
    run: &Run,
) -> Result<(Base, Prices), Status>
    ensures files { S.files shelf.new ≡ S.files shelf.old }
    ensures keep_faults { S.keep_faults shelf.new ≡ S.keep_faults shelf.old }
    ensures fetch_faults { S.fetch_faults shelf.old ≤ S.fetch_faults shelf.new }
    ensures accepted { IfOk result (λ p. Told (S.files shelf.old)
        (λ files. accepted_prices (run_of run.now) files ≡ Ok (p.0.text.items, p.1))) }
    ensures state { IfOk result (λ p. IsBase p.0) }
    ensures told { IfOk result (λ _. Told (S.files shelf.old) (HasState (run_of run.now))) }
    ensures refused { IfErr result (PricesRefusedFor (S.files shelf.old) (run_of run.now) (S.fetch_faults shelf.old)
        (S.fetch_faults shelf.new)) }
{
    let base = accept_state(alloc, shelf, run)?;
    let text = take(alloc, shelf, run.prices.as_str(), Input::Prices, PRICES_MAX)?;
    let prices = prices_in(alloc, text.as_slice())?;
    Ok((base, prices))
}

/// Checks the limit, after the state and the prices.
pub(crate) fn accept_limit<S: Shelf>(
    alloc: Global,
    shelf: &mut S,
    run: &Run,
    limit: u64,
) -> Result<(Base, Prices), Status>
    ensures files { S.files shelf.new ≡ S.files shelf.old }
    ensures keep_faults { S.keep_faults shelf.new ≡ S.keep_faults shelf.old }
    ensures fetch_faults { S.fetch_faults shelf.old ≤ S.fetch_faults shelf.new }
    ensures accepted { IfOk result (λ p. Told (S.files shelf.old)
        (λ files. accepted_limit (run_of run.now) limit files ≡ Ok (p.0.text.items, p.1))) }
    ensures state { IfOk result (λ p. IsBase p.0) }
    ensures told { IfOk result (λ _. Told (S.files shelf.old) (HasState (run_of run.now))) }
    ensures in_range { IfOk result (λ p. limit ≤ greatest_limit p.1) }
    ensures refused { IfErr result (RefusedFor (S.files shelf.old) (run_of run.now) limit (S.fetch_faults shelf.old)
        (S.fetch_faults shelf.new)) }
{
    let (base, prices) = accept_prices(alloc, shelf, run)?;
    let most = most_limit(&prices);
    if limit == 0 || limit > most {
        return Err(Status::Limit { limit, most });
    }
    Ok((base, prices))
}
