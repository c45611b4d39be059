use crate::seeds::ids;
use calculus::Digest;
use event_log::{Log, LogFault, LogHeader, LogStep, MOST_DATA, read_log, write_log};
use std::alloc::Global;
use table_lines::{Answer, Fields, LineFault, hex_bytes};

/// The text of a log of one step. The fields are the base, the source, the prices, the limit, the receiver, and the data
/// that it takes.
pub fn write(alloc: Global, fields: &str) -> Result<String, LineFault> {
    let mut fields = Fields::new(fields);
    let header = read_header(&mut fields);
    let cont = Digest(fields.digest());
    let taken = ids(alloc, fields.rest()?)?;
    if taken.is_empty() || taken.len() > MOST_DATA {
        return Err(LineFault::Field);
    }
    let step = LogStep {
        cont,
        taken,
        repeat: 0,
    };
    let steps = vec![in alloc; step]?;
    let mut answer = Answer::new(alloc);
    answer.put_hex_of(write_log(alloc, &Log { header, steps }));
    answer.text()
}

fn read_header(fields: &mut Fields) -> LogHeader {
    let base = Digest(fields.digest());
    let source = Digest(fields.digest());
    let prices = Digest(fields.digest());
    let limit = u64::from(fields.number());
    LogHeader {
        base,
        source,
        prices,
        limit,
    }
}

/// The fields of a log: those of its header, and for each step the receiver, the data and how often it was made before.
pub fn read(alloc: Global, digits: &str) -> Result<String, LineFault> {
    let text = hex_bytes(alloc, digits)?;
    let mut answer = Answer::new(alloc);
    match read_log(alloc, text.as_slice()) {
        Ok(log) => put_log(&mut answer, &log),
        Err(fault) => answer.put_made(format!(in alloc; "{fault:?}")),
    }
    answer.text()
}

fn put_log(answer: &mut Answer, log: &Log) {
    answer.put_hex(log.header.base.0.as_slice());
    put_digest(answer, &log.header.source);
    put_digest(answer, &log.header.prices);
    put_number(answer, log.header.limit);
    for step in &log.steps {
        put_step(answer, step);
    }
}

fn put_step(answer: &mut Answer, step: &LogStep) {
    answer.put(";");
    put_digest(answer, &step.cont);
    for id in &step.taken {
        put_digest(answer, id);
    }
    put_number(answer, u64::from(step.repeat));
}

fn put_digest(answer: &mut Answer, digest: &Digest) {
    answer.put(" ");
    answer.put_hex(digest.0.as_slice());
}

fn put_number(answer: &mut Answer, number: u64) {
    answer.put(" ");
    answer.put_number(number);
}

/// Whether each text that a log's text begins with is short at its end.
pub fn cuts(alloc: Global, digits: &str) -> Result<String, LineFault> {
    let text = hex_bytes(alloc, digits)?;
    for at in 0..text.len() {
        if !is_short(alloc, &text.as_slice()[..at]) {
            return Ok(format!(in alloc; "not short at {at}")?);
        }
    }
    Ok(String::from_str(alloc, "short")?)
}

fn is_short(alloc: Global, text: &[u8]) -> bool {
    read_log(alloc, text).err() == Some(LogFault::Short { at: text.len() })
}
