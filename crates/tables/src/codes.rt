//! Codes of terms.
use crate::texts::about_source;
use crate::values::{height, printed};
use rho_term::Term;
use std::alloc::Global;
use table_lines::{LineFault, hex_bytes};
use term_code::{CodeFault, decode_term};
use term_encoder::encode_term;

/// An answer about the bytes that digits spell, or why they are no code; or about the term of a source.
pub fn answer(alloc: Global, word: &str, fields: &str) -> Result<String, LineFault> {
    match word {
        "code-again" => again(alloc, fields),
        "cuts-of-code" => cuts(alloc, fields),
        "height-of-code" => height(alloc, &read_code(alloc, fields)?),
        "print-code" => printed(alloc, &read_code(alloc, fields)?),
        _ => about_source(alloc, word, fields),
    }
}

/// The term of a code in digits.
fn read_code(alloc: Global, digits: &str) -> Result<Term, LineFault> {
    decoded(alloc, hex_bytes(alloc, digits)?.as_slice())
}

fn decoded(alloc: Global, code: &[u8]) -> Result<Term, LineFault> {
    match decode_term(alloc, code) {
        Ok(term) => Ok(term),
        Err(fault) => Err(LineFault::Refused(format!(in alloc; "{fault:?}")?)),
    }
}

/// Whether a term has the code that it was read from.
fn again(alloc: Global, digits: &str) -> Result<String, LineFault> {
    let code = hex_bytes(alloc, digits)?;
    let term = decoded(alloc, code.as_slice())?;
    told_again(alloc, &term, code.as_slice())
}

fn told_again(alloc: Global, term: &Term, code: &[u8]) -> Result<String, LineFault> {
    let again = encode_term(alloc, term)?;
    let told = if again.as_slice() == code {
        "given back"
    } else {
        "other bytes"
    };
    Ok(String::from_str(alloc, told)?)
}

/// Whether all bytes that a code begins with are short at their end.
fn cuts(alloc: Global, digits: &str) -> Result<String, LineFault> {
    let code = hex_bytes(alloc, digits)?;
    for at in 0..code.len() {
        if !is_short(alloc, &code.as_slice()[..at]) {
            return Ok(format!(in alloc; "not short at {at}")?);
        }
    }
    Ok(String::from_str(alloc, "short")?)
}

fn is_short(alloc: Global, code: &[u8]) -> bool {
    decode_term(alloc, code).err() == Some(CodeFault::Short { at: code.len() })
}
