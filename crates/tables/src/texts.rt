//! Sources and their terms.
ghost use Rattle.std.specs.Prelude.{IfOk};
ghost use Rattle.calculus.specs.Form.{IsClosed};

use crate::codes;
use crate::offers::{body_offers, offers, read_values};
use crate::values::{told, value, weighed};
use price_table::Prices;
use rho_term::{Part, Term};
use sources::{SourceFault, read_source};
use std::alloc::{AllocError, Global};
use substituted_sizes::put_size;
use substitution::substitute;
use table_lines::{Answer, LineFault, two_sources, unescape};
use term_encoder::{code_len, encode_term, group_key};
use term_order::cmp_terms;

/// The answer to a line of this kind with these fields.
pub fn answer(alloc: Global, word: &str, fields: &str) -> Result<String, LineFault> {
    match word {
        "read" => read(alloc, fields),
        "order" => order(alloc, fields),
        "group-key" => key(alloc, fields),
        "put" => put(alloc, fields),
        "value" => value(alloc, &Prices::standard(), fields),
        "weighed" => value(alloc, &weighed(), fields),
        "unfold" => offers(alloc, fields),
        "unfold-body" => body_offers(alloc, fields),
        _ => codes::answer(alloc, word, fields),
    }
}

/// The answer to a line of this kind about the term of a source.
pub fn about_source(alloc: Global, word: &str, source: &str) -> Result<String, LineFault> {
    let term = read_term(alloc, source)?;
    told(alloc, word, &term)
}

/// What a source is refused for.
fn refusal(alloc: Global, fault: &SourceFault) -> Result<String, AllocError> {
    match fault {
        SourceFault::Lex(fault) => format!(in alloc; "lex {fault:?}"),
        SourceFault::Parse(fault) => format!(in alloc; "parse {fault:?}"),
        SourceFault::Scope(fault) => format!(in alloc; "scope {fault:?}"),
    }
}

// Why a source is refused, as was told of a fault, which is told in the answer's place.
fn refused<F: Drop>(told: Result<String, AllocError>, _fault: F) -> LineFault {
    match told {
        Ok(told) => LineFault::Refused(told),
        Err(_) => LineFault::NoMemory,
    }
}

/// The term of a source.
pub fn read_bytes(alloc: Global, source: &[u8]) -> Result<Term, LineFault>
    ensures { IfOk result IsClosed }
{
    match read_source(alloc, source) {
        Ok(term) => Ok(term),
        Err(fault) => Err(refused(refusal(alloc, &fault), fault)),
    }
}

/// The term of a source with escapes.
pub fn read_term(alloc: Global, source: &str) -> Result<Term, LineFault>
    ensures { IfOk result IsClosed }
{
    read_bytes(alloc, unescape(alloc, source)?.as_slice())
}

/// Whether a text is a source, whose names may break a rule of scope.
fn read(alloc: Global, source: &str) -> Result<String, LineFault> {
    let text = unescape(alloc, source)?;
    let answer = Box::new(alloc, read_source(alloc, text.as_slice()))?;
    Ok(told_read(alloc, &answer)?)
}

fn told_read(alloc: Global, answer: &Result<Term, SourceFault>) -> Result<String, AllocError> {
    match answer {
        Ok(_) | Err(SourceFault::Scope(_)) => String::from_str(alloc, "read"),
        Err(fault) => refusal(alloc, fault),
    }
}

/// The order of two terms.
fn order(alloc: Global, sources: &str) -> Result<String, LineFault> {
    let (left, right) = two_sources(sources)?;
    let left = read_term(alloc, left)?;
    told_order(alloc, &left, &read_term(alloc, right)?)
}

fn told_order(alloc: Global, left: &Term, right: &Term) -> Result<String, LineFault> {
    let order = cmp_terms(left, right);
    Ok(format!(in alloc; "{order:?}")?)
}

/// The key of the group of one channel.
fn key(alloc: Global, source: &str) -> Result<String, LineFault> {
    let key = group_key(alloc, &[read_term(alloc, source)?])?;
    Ok(hex::encode(alloc, key.0.as_slice())?)
}

/// The code of the body of a receive with values in place of its variables.
fn put(alloc: Global, sources: &str) -> Result<String, LineFault> {
    let (receive, values) = two_sources(sources)?;
    let receive = read_term(alloc, receive)?;
    let values = read_values(alloc, values)?;
    put_into(alloc, receive.parts(), values.as_slice())
}

fn put_into(alloc: Global, parts: &[Part], values: &[Term]) -> Result<String, LineFault> {
    let [Part::Receive { body, .. }] = parts else {
        return Err(LineFault::Field);
    };
    put_body(alloc, body, values)
}

fn put_body(alloc: Global, body: &Term, values: &[Term]) -> Result<String, LineFault> {
    let term = substitute(alloc, body, values)?;
    let (height, length) = put_size(body, values);
    let is_foretold = height == term.height() && length == code_len(&term);
    let mut answer = Answer::new(alloc);
    answer.put_hex_of(encode_term(alloc, &term));
    answer.put_made(format!(in alloc; " foretold {is_foretold}"));
    answer.text()
}
