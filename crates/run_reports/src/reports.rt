ghost use Rattle.std.specs.Prelude.{◌≡◌, IfOk, string_bytes};
ghost use Rattle.hex.specs.Hex.{encode_lower};
ghost use Rattle.serde_json.specs.Data.{object};
ghost use Rattle.serde_json.specs.View.{view};
ghost use Rattle.calculus.specs.Faults.{fault_name};
ghost use Rattle.run_reports.specs.Report.{Report, plain_members, faulted_members, report_members, report_line, state_members, state_line, step_data};

use calculus::{Digest, FaultKind};
use replays::Verdict;
use serde_json::{Value, json};
use std::alloc::{AllocError, Global};

/// The line that reports a run: compact JSON with its keys in byte order, and a line feed.
pub fn report(
    alloc: Global,
    verdict: Verdict,
    cost: u64,
    root: &Digest,
    steps: u32,
) -> Result<Vec<u8>, AllocError>
    ensures { IfOk result (λ line. line.items ≡ report_line (record { verdict = verdict; cost = cost; root = root.now.0; steps = steps })) }
{
    let root = hex::encode(alloc, root.0.as_slice())?;
    let value = report_value(alloc, verdict, cost, root.as_str(), steps)?;
    let mut line = value.to_string(alloc)?;
    line.push('\n')?;
    Ok(line.into_bytes())
}

/// The line that reports a state: compact JSON with its keys in byte order, and a line feed.
pub fn state_report(alloc: Global, root: &Digest, rows: u64) -> Result<Vec<u8>, AllocError>
    ensures { IfOk result (λ line. line.items ≡ state_line root.now.0 rows) }
{
    let root = hex::encode(alloc, root.0.as_slice())?;
    let value = state_value(alloc, root.as_str(), rows)?;
    let mut line = value.to_string(alloc)?;
    line.push('\n')?;
    Ok(line.into_bytes())
}

fn state_value(alloc: Global, root: &str, rows: u64) -> Result<Value, AllocError>
    ensures { IfOk result (λ v. view v ≡ object (state_members root.now rows)) }
{
    json!(in alloc; {"root": root, "rows": rows})
}

fn report_value(
    alloc: Global,
    verdict: Verdict,
    cost: u64,
    root: &str,
    steps: u32,
) -> Result<Value, AllocError>
    ensures { IfOk result (λ v. view v ≡ object (report_members verdict cost root.now steps)) }
{
    match verdict {
        Verdict::Done => plain_value(alloc, cost, root, steps, "done"),
        Verdict::Exhausted => plain_value(alloc, cost, root, steps, "exhausted"),
        Verdict::Faulted { step, kind } => faulted_value(alloc, cost, kind, root, step, steps),
    }
}

fn plain_value(
    alloc: Global,
    cost: u64,
    root: &str,
    steps: u32,
    verdict: &str,
) -> Result<Value, AllocError>
    ensures { IfOk result (λ v. view v ≡ object (plain_members cost root.now steps verdict.now)) }
{
    json!(in alloc; {"cost": cost, "root": root, "steps": steps, "verdict": verdict})
}

fn faulted_value(
    alloc: Global,
    cost: u64,
    kind: FaultKind,
    root: &str,
    step: Option<u32>,
    steps: u32,
) -> Result<Value, AllocError>
    ensures { IfOk result (λ v. view v ≡ object (faulted_members cost (fault_name kind) root.now step steps)) }
{
    let fault = format!(in alloc; "{kind}")?;
    let step = step_value(step);
    json!(in alloc; {"cost": cost, "fault": fault, "root": root, "step": step, "steps": steps, "verdict": "faulted"})
}

fn step_value(step: Option<u32>) -> Value
    ensures { view result ≡ step_data step }
{
    match step {
        None => Value::Null,
        Some(step) => Value::from(step),
    }
}
