//! What the words of a command line are read as.
use command_words::{Command, Run, Usage, Workload, read_command};
use std::alloc::{AllocError, Global};
use table_lines::LineFault;

/// What the words of `rho` that stand between spaces ask for, or why they are refused.
pub fn asked(alloc: Global, fields: &str) -> Result<String, LineFault> {
    let words = words_of(alloc, fields)?;
    let asked = Box::new(alloc, read_command(alloc, words.as_slice()))?;
    told(alloc, &asked)
}

fn words_of(alloc: Global, fields: &str) -> Result<Vec<String>, LineFault> {
    let mut words = Vec::new(alloc);
    for word in fields.split(' ') {
        if !word.is_empty() {
            words.push(String::from_str(alloc, word)?)?;
        }
    }
    Ok(words)
}

fn told(alloc: Global, answer: &Result<Command, Usage>) -> Result<String, LineFault> {
    let told = match answer {
        Ok(command) => command_text(alloc, command),
        Err(refusal) => format!(in alloc; "{refusal:?}"),
    };
    Ok(told?)
}

fn command_text(alloc: Global, command: &Command) -> Result<String, AllocError> {
    match command {
        Command::Genesis { file } => file_text(alloc, "genesis", file.as_str()),
        Command::Deploy { run, limit } => deploy_text(alloc, run, *limit),
        Command::Replay(run) => run_text(alloc, "replay", run),
        Command::Inspect { file } => file_text(alloc, "inspect", file.as_str()),
        Command::Workload(work) => work_text(alloc, work),
    }
}

fn file_text(alloc: Global, verb: &str, file: &str) -> Result<String, AllocError> {
    format!(in alloc; "{verb} {file}")
}

fn deploy_text(alloc: Global, run: &Run, limit: u64) -> Result<String, AllocError> {
    let run = run_text(alloc, "deploy", run)?;
    format!(in alloc; "{run} limit {limit}")
}

fn work_text(alloc: Global, work: &Workload) -> Result<String, AllocError> {
    let log = work.log.as_str();
    let workers = work.workers;
    let steps = work.steps;
    format!(in alloc; "workload log {log} workers {workers} steps {steps}")
}

fn run_text(alloc: Global, verb: &str, run: &Run) -> Result<String, AllocError> {
    let file = run.file.as_str();
    let state = run.state.as_str();
    let prices = run.prices.as_str();
    let log = run.log.as_str();
    let next = run.next.as_str();
    let workers = run.workers;
    format!(in alloc;
        "{verb} {file} state {state} prices {prices} log {log} next {next} workers {workers}"
    )
}
