ghost use Rattle.std.specs.Prelude.{◌≡◌, ◌≤◌, Ok, IsOkAnd, IfOk, IfErr, length, map};
ghost use Rattle.event_log.specs.Reading.{log_of};
ghost use Rattle.event_log.specs.View.{header_of, step_of, IsWritable};
ghost use Rattle.calculus.specs.Form.{IsClosed};
ghost use Rattle.calculus.specs.Limits.{most_limit as greatest_limit};
ghost use Rattle.rho_outside.specs.Told.{Told};
ghost use Rattle.command_words.specs.Answers.{run_of};
ghost use Rattle.run_inputs.specs.Inputs.{accepted_source};
ghost use Rattle.run_inputs.specs.Refused.{RefusedFor, SourceCause};
ghost use Rattle.run_inputs.specs.Replaying.{ReplayRefusedFor};
ghost use Rattle.run_inputs.specs.Runnable.{HasState};
ghost use Rattle.run_inputs.specs.Given.{task_of, IsBase, AreAccepted, AreReplayAccepted, LogCause};
ghost use Rattle.sources.specs.Sources.{IsSourceOf};

use crate::fetch::{Base, accept_limit, accept_prices, take};
use command_words::Run;
use event_log::readable_laws::read_logs_are_writable;
use event_log::{Log, read_log};
use price_table::Prices;
use rho_outside::Shelf;
use rho_term::Term;
use run_status::{Input, Status};
use sources::read_source;
use std::alloc::Global;

/// The greatest number of bytes of a source.
const SOURCE_MAX: u64 = 1_048_576;

/// The greatest number of bytes of a log.
const LOG_MAX: u64 = 1_073_741_824;

/// What is to be run: the state, the prices, the source's bytes, and the normal term of the process that they spell.
#[derive(Drop)]
pub struct Inputs {
    pub base: Base,
    pub prices: Prices,
    pub source: Vec<u8>,
    pub term: Term,
}

/// What a replay was given: what is to be run, and the log.
#[derive(Drop)]
pub struct ReplayInputs {
    pub inputs: Inputs,
    pub log: Log,
}

/// The process of a source.
fn accept_term(alloc: Global, source: &[u8]) -> Result<Term, Status>
    ensures term { IfOk result (IsSourceOf source.now) }
    ensures closed { IfOk result IsClosed }
    ensures cause { IfErr result (SourceCause source.now) }
{
    Ok(read_source(alloc, source)?)
}

/// The inputs of a state, prices and a source's bytes.
fn inputs_of(alloc: Global, base: Base, prices: Prices, source: Vec<u8>) -> Result<Inputs, Status>
    ensures given { IfOk result (λ i. task_of i ≡ record { state = base.text.items; prices = prices; source = source.items }) }
    ensures base { IfOk result (λ i. i.base ≡ base) }
    ensures term { IfOk result (λ i. IsSourceOf i.source.items i.term) }
    ensures closed { IfOk result (λ i. IsClosed i.term) }
    ensures cause { IfErr result (SourceCause source.items) }
{
    let term = accept_term(alloc, source.as_slice())?;
    Ok(Inputs {
        base,
        prices,
        source,
        term,
    })
}

/// Fetches and checks what a deploy needs: the state, the prices, the limit and the source.
pub fn accept<S: Shelf>(
    alloc: Global,
    shelf: &mut S,
    run: &Run,
    limit: u64,
) -> Result<Inputs, Status>
    ensures files { S.files shelf.new ≡ S.files shelf.old }
    ensures keep_faults { S.keep_faults shelf.new ≡ S.keep_faults shelf.old }
    ensures fetch_faults { S.fetch_faults shelf.old ≤ S.fetch_faults shelf.new }
    ensures given { IfOk result (AreAccepted (S.files shelf.old) (run_of run.now) limit) }
    ensures refused { IfErr result (RefusedFor (S.files shelf.old) (run_of run.now) limit (S.fetch_faults shelf.old)
        (S.fetch_faults shelf.new)) }
{
    let (base, prices) = accept_limit(alloc, shelf, run, limit)?;
    let source = take(alloc, shelf, run.file.as_str(), Input::Source, SOURCE_MAX)?;
    inputs_of(alloc, base, prices, source)
}

/// Fetches and checks what a replay needs up to its source.
fn accept_replay_source<S: Shelf>(alloc: Global, shelf: &mut S, run: &Run) -> Result<Inputs, Status>
    ensures files { S.files shelf.new ≡ S.files shelf.old }
    ensures keep_faults { S.keep_faults shelf.new ≡ S.keep_faults shelf.old }
    ensures fetch_faults { S.fetch_faults shelf.old ≤ S.fetch_faults shelf.new }
    ensures accepted { IfOk result (λ i. Told (S.files shelf.old) (λ files. accepted_source (run_of run.now) files ≡ Ok (task_of i))) }
    ensures state { IfOk result (λ i. IsBase i.base) }
    ensures term { IfOk result (λ i. IsSourceOf i.source.items i.term) }
    ensures closed { IfOk result (λ i. IsClosed i.term) }
    ensures short { IfOk result (λ i. length i.source.items ≤ 1048576) }
    ensures told { IfOk result (λ _. Told (S.files shelf.old) (HasState (run_of run.now))) }
    ensures refused { IfErr result (ReplayRefusedFor (S.files shelf.old) (run_of run.now) (S.fetch_faults shelf.old)
        (S.fetch_faults shelf.new)) }
{
    let (base, prices) = accept_prices(alloc, shelf, run)?;
    let source = take(alloc, shelf, run.file.as_str(), Input::Source, SOURCE_MAX)?;
    inputs_of(alloc, base, prices, source)
}

/// The log of these bytes.
fn log_of_bytes(alloc: Global, bytes: &[u8]) -> Result<Log, Status>
    ensures read { IfOk result (λ log. log_of bytes.now ≡ Ok (header_of log.header, map step_of log.steps.items)) }
    ensures writable { IfOk result IsWritable }
    ensures refused { IfErr result (LogCause bytes.now) }
{
    read_logs_are_writable();
    Ok(read_log(alloc, bytes)?)
}

/// Fetches and checks what a replay needs: the state, the prices, the source and the log.
pub fn accept_replay<S: Shelf>(
    alloc: Global,
    shelf: &mut S,
    run: &Run,
) -> Result<ReplayInputs, Status>
    ensures files { S.files shelf.new ≡ S.files shelf.old }
    ensures keep_faults { S.keep_faults shelf.new ≡ S.keep_faults shelf.old }
    ensures fetch_faults { S.fetch_faults shelf.old ≤ S.fetch_faults shelf.new }
    ensures given { IfOk result (AreReplayAccepted (S.files shelf.old) (run_of run.now)) }
    ensures refused { IfErr result (ReplayRefusedFor (S.files shelf.old) (run_of run.now) (S.fetch_faults shelf.old)
        (S.fetch_faults shelf.new)) }
{
    let inputs = accept_replay_source(alloc, shelf, run)?;
    let bytes = take(alloc, shelf, run.log.as_str(), Input::Log, LOG_MAX)?;
    let log = log_of_bytes(alloc, bytes.as_slice())?;
    Ok(ReplayInputs { inputs, log })
}
