ghost use Rattle.std.specs.Prelude.{◌≡◌, IfOk, string_bytes};
ghost use Rattle.run_status.specs.Message.{digest_text, digests_text, lex_text, log_text, parse_text, price_text, replay_text, scope_text, source_text, state_text, step_text, usage_text};

use calculus::Digest;
use command_words::Usage;
use event_log::LogFault;
use input_faults::{ParseFault, ScopeFault, SourceFault, StateFault};
use phlo_meter::PriceFault;
use replays::ReplayFault;
use rho_lexer::LexFault;
use std::alloc::{AllocError, Global};

/// The name and the field of what the words are refused for.
pub(crate) fn usage_text(alloc: Global, fault: &Usage) -> Result<String, AllocError>
    ensures { IfOk result (λ text. string_bytes text ≡ usage_text fault.now) }
{
    match fault {
        Usage::BadWords => String::from_str(alloc, "BadWords"),
        Usage::UnknownVerb { verb } => format!(in alloc; "UnknownVerb verb={verb}"),
        Usage::Missing { what } => format!(in alloc; "Missing what={what}"),
        Usage::Surplus { what } => format!(in alloc; "Surplus what={what}"),
        Usage::BadNumber { what } => format!(in alloc; "BadNumber what={what}"),
        Usage::SameFile => String::from_str(alloc, "SameFile"),
        Usage::NoMemory => String::from_str(alloc, "NoMemory"),
    }
}

/// The name and the fields of what the bytes of a state are refused for.
pub(crate) fn state_text(alloc: Global, fault: &StateFault) -> Result<String, AllocError>
    ensures { IfOk result (λ text. string_bytes text ≡ state_text fault.now) }
{
    match fault {
        StateFault::Short { at } => format!(in alloc; "Short at={at}"),
        StateFault::NotCanonical { at } => format!(in alloc; "NotCanonical at={at}"),
        StateFault::WrongRoot { stored, found } => {
            let stored = digest_text(alloc, stored)?;
            let found = digest_text(alloc, found)?;
            format!(in alloc; "WrongRoot stored={stored} found={found}")
        }
        StateFault::Reducible { cont, taken } => step_text(alloc, cont, taken.as_slice()),
        StateFault::NoMemory => String::from_str(alloc, "NoMemory"),
    }
}

/// The name and the fields of a step that is still allowed: the id of its receiver, and those of its data.
fn step_text(alloc: Global, cont: &Digest, taken: &[Digest]) -> Result<String, AllocError>
    ensures { IfOk result (λ text. string_bytes text ≡ step_text cont.now taken.now) }
{
    let cont = digest_text(alloc, cont)?;
    let taken = digests_text(alloc, taken)?;
    format!(in alloc; "Reducible cont={cont} taken={taken}")
}

/// The name and the fields of what a source is refused for.
pub(crate) fn source_text(alloc: Global, fault: &SourceFault) -> Result<String, AllocError>
    ensures { IfOk result (λ text. string_bytes text ≡ source_text fault.now) }
{
    match fault {
        SourceFault::Lex(fault) => lex_text(alloc, fault),
        SourceFault::Parse(fault) => parse_text(alloc, fault),
        SourceFault::Scope(fault) => scope_text(alloc, fault),
    }
}

fn lex_text(alloc: Global, fault: &LexFault) -> Result<String, AllocError>
    ensures { IfOk result (λ text. string_bytes text ≡ lex_text fault.now) }
{
    match fault {
        LexFault::BadByte { at } => format!(in alloc; "BadByte at={at}"),
        LexFault::OpenString { at } => format!(in alloc; "OpenString at={at}"),
        LexFault::OpenComment { at } => format!(in alloc; "OpenComment at={at}"),
        LexFault::LiteralTooLarge { at } => format!(in alloc; "LiteralTooLarge at={at}"),
        LexFault::NoMemory => String::from_str(alloc, "NoMemory"),
    }
}

fn parse_text(alloc: Global, fault: &ParseFault) -> Result<String, AllocError>
    ensures { IfOk result (λ text. string_bytes text ≡ parse_text fault.now) }
{
    match fault {
        ParseFault::Syntax { at } => format!(in alloc; "Syntax at={at}"),
        ParseFault::TooDeep { at } => format!(in alloc; "TooDeep at={at}"),
        ParseFault::NoMemory => String::from_str(alloc, "NoMemory"),
    }
}

fn scope_text(alloc: Global, fault: &ScopeFault) -> Result<String, AllocError>
    ensures { IfOk result (λ text. string_bytes text ≡ scope_text fault.now) }
{
    match fault {
        ScopeFault::Unbound { name } => format!(in alloc; "Unbound name={name}"),
        ScopeFault::WantsName { name } => format!(in alloc; "WantsName name={name}"),
        ScopeFault::WantsProcess { name } => format!(in alloc; "WantsProcess name={name}"),
        ScopeFault::Repeated { name } => format!(in alloc; "Repeated name={name}"),
        ScopeFault::PatternBinder => String::from_str(alloc, "PatternBinder"),
        ScopeFault::PatternWide => String::from_str(alloc, "PatternWide"),
        ScopeFault::UnderNegation { name } => format!(in alloc; "UnderNegation name={name}"),
        ScopeFault::UnknownUri { uri } => format!(in alloc; "UnknownUri uri={uri}"),
        ScopeFault::NoMemory => String::from_str(alloc, "NoMemory"),
    }
}

/// The name and the fields of what a price text is refused for.
pub(crate) fn price_text(alloc: Global, fault: &PriceFault) -> Result<String, AllocError>
    ensures { IfOk result (λ text. string_bytes text ≡ price_text fault.now) }
{
    match fault {
        PriceFault::NotToml => String::from_str(alloc, "NotToml"),
        PriceFault::MissingKey { key } => format!(in alloc; "MissingKey key={key}"),
        PriceFault::NotInteger { key } => format!(in alloc; "NotInteger key={key}"),
        PriceFault::OutOfRange { key, value } => {
            format!(in alloc; "OutOfRange key={key} value={value}")
        }
        PriceFault::UnknownKey { key } => format!(in alloc; "UnknownKey key={key}"),
        PriceFault::NoMemory => String::from_str(alloc, "NoMemory"),
    }
}

/// The name and the field of what the bytes of a log are refused for.
pub(crate) fn log_text(alloc: Global, fault: &LogFault) -> Result<String, AllocError>
    ensures { IfOk result (λ text. string_bytes text ≡ log_text fault.now) }
{
    match fault {
        LogFault::Short { at } => format!(in alloc; "Short at={at}"),
        LogFault::Bad { at } => format!(in alloc; "Bad at={at}"),
        LogFault::Version { found } => format!(in alloc; "Version found={found}"),
        LogFault::TooLong { entries } => format!(in alloc; "TooLong entries={entries}"),
        LogFault::NoMemory => String::from_str(alloc, "NoMemory"),
    }
}

/// The name and the fields of what a log is refused for as that of a run.
pub(crate) fn replay_text(alloc: Global, fault: &ReplayFault) -> Result<String, AllocError>
    ensures { IfOk result (λ text. string_bytes text ≡ replay_text fault.now) }
{
    match fault {
        ReplayFault::WrongBase { log, state } => {
            let log = digest_text(alloc, log)?;
            let state = digest_text(alloc, state)?;
            format!(in alloc; "WrongBase log={log} state={state}")
        }
        ReplayFault::WrongSource { log, given } => {
            let log = digest_text(alloc, log)?;
            let given = digest_text(alloc, given)?;
            format!(in alloc; "WrongSource log={log} given={given}")
        }
        ReplayFault::WrongPrices { log, given } => {
            let log = digest_text(alloc, log)?;
            let given = digest_text(alloc, given)?;
            format!(in alloc; "WrongPrices log={log} given={given}")
        }
        ReplayFault::WrongLimit { log, most } => {
            format!(in alloc; "WrongLimit log={log} most={most}")
        }
        ReplayFault::NoRun { step } => format!(in alloc; "NoRun step={step}"),
        ReplayFault::Reducible { cont, taken } => step_text(alloc, cont, taken.as_slice()),
        ReplayFault::NoMemory => String::from_str(alloc, "NoMemory"),
    }
}

/// A digest in lower-case hexadecimal.
fn digest_text(alloc: Global, digest: &Digest) -> Result<String, AllocError>
    ensures { IfOk result (λ text. string_bytes text ≡ digest_text digest.now) }
{
    hex::encode(alloc, digest.0.as_slice())
}

/// Digests in lower-case hexadecimal, with a comma between each two.
fn digests_text(alloc: Global, digests: &[Digest]) -> Result<String, AllocError>
    ensures { IfOk result (λ text. string_bytes text ≡ digests_text digests.now) }
{
    let mut texts = Vec::new(alloc);
    for digest in digests {
        texts.push(digest_text(alloc, digest)?)?;
    }
    texts.as_slice().join(alloc, ",")
}
