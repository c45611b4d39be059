use calculus::Digest;
use checkpoint::state_of;
use state_reader::{StateFault, read_state};
use std::alloc::{AllocError, Global};
use table_lines::{Answer, LineFault, hex_bytes};

// The root and the text that are made of the rows of a state, or why its bytes are none.
type Made = Result<(Digest, Vec<u8>), StateFault>;

fn made_again(alloc: Global, bytes: &[u8]) -> Made {
    match read_state(alloc, bytes) {
        Ok(state) => Ok(state_of(alloc, state.into_rows())?),
        Err(fault) => Err(fault),
    }
}

fn made(alloc: Global, bytes: &[u8]) -> Result<Box<Made>, AllocError> {
    boxed(alloc, made_again(alloc, bytes))
}

fn boxed<T: Drop>(alloc: Global, value: T) -> Result<Box<T>, AllocError> {
    Ok(Box::new(alloc, value)?)
}

/// The root and the text that are made of the rows of a state, or why its bytes are none. The field is its text.
pub fn state(alloc: Global, field: &str) -> Result<String, LineFault> {
    let bytes = hex_bytes(alloc, field)?;
    let made = made(alloc, bytes.as_slice())?;
    told(alloc, &made)
}

fn told(alloc: Global, made: &Made) -> Result<String, LineFault> {
    let mut answer = Answer::new(alloc);
    match made {
        Ok((root, text)) => {
            answer.put_hex(root.0.as_slice());
            answer.put(" ");
            answer.put_hex(text.as_slice());
        }
        Err(fault) => answer.put_made(format!(in alloc; "{fault:?}")),
    }
    answer.text()
}

/// How many beginnings of a state's text, the whole one left out, are said to end early at their length. The field is
/// the text.
pub fn cut_states(alloc: Global, field: &str) -> Result<String, LineFault> {
    let bytes = hex_bytes(alloc, field)?;
    let mut short = 0usize;
    for len in 0..bytes.len() {
        if ends_early(alloc, &bytes.as_slice()[..len]) {
            short = short.saturating_add(1);
        }
    }
    Ok(format!(in alloc; "{short} of {}", bytes.len())?)
}

fn ends_early(alloc: Global, bytes: &[u8]) -> bool {
    match made(alloc, bytes) {
        Ok(made) => is_short(&made, bytes.len()),
        Err(_) => false,
    }
}

fn is_short(made: &Made, len: usize) -> bool {
    match made {
        Err(StateFault::Short { at }) => *at == len,
        _ => false,
    }
}

/// How many of the texts in which one byte of a state's text has another lowest bit are refused. The field is the text.
pub fn changed_states(alloc: Global, field: &str) -> Result<String, LineFault> {
    let mut bytes = hex_bytes(alloc, field)?;
    let mut refused = 0usize;
    for at in 0..bytes.len() {
        bytes[at] ^= 1;
        if is_refused(alloc, bytes.as_slice()) {
            refused = refused.saturating_add(1);
        }
        bytes[at] ^= 1;
    }
    Ok(format!(in alloc; "{refused} of {}", bytes.len())?)
}

fn is_refused(alloc: Global, bytes: &[u8]) -> bool {
    match made(alloc, bytes) {
        Ok(made) => is_fault(&made),
        Err(_) => false,
    }
}

fn is_fault(made: &Made) -> bool {
    match made {
        Ok(_) | Err(StateFault::NoMemory) => false,
        Err(_) => true,
    }
}
