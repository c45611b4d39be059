//! What is told of terms: their codes, values, printed texts and matches.
ghost use Rattle.calculus.specs.Form.{IsClosed};

use crate::matches::matched;
use crate::texts::{read_bytes, read_term};
use price_table::{EvalStop, PriceList, Priced, Prices};
use rho_eval::evaluate;
use rho_printer::print_term;
use rho_term::Term;
use std::alloc::Global;
use table_lines::{Answer, Fields, LineFault};
use term_encoder::{encode_term, shard_of};
use term_order::cmp_terms;

/// The answer to a line of this kind about a term.
pub fn told(alloc: Global, word: &str, term: &Term) -> Result<String, LineFault>
    requires { IsClosed term.now }
{
    match word {
        "code" => code(alloc, term),
        "height" => height(alloc, term),
        "parts" => parts(alloc, term),
        "shard" => shard(alloc, term),
        "print" => print(alloc, term),
        "alone" => alone(alloc, term),
        "match" => match_of(alloc, term),
        _ => Err(LineFault::Kind),
    }
}

/// The printed text of a term.
pub fn printed(alloc: Global, term: &Term) -> Result<String, LineFault> {
    let mut answer = Answer::new(alloc);
    answer.put_utf8_of(print_term(alloc, term));
    answer.text()
}

/// The code and the height of a term.
fn code(alloc: Global, term: &Term) -> Result<String, LineFault> {
    let mut answer = Answer::new(alloc);
    answer.put_hex_of(encode_term(alloc, term));
    answer.put(" height ");
    answer.put_number(u64::from(term.height()));
    answer.text()
}

pub fn height(alloc: Global, term: &Term) -> Result<String, LineFault> {
    let height = term.height();
    Ok(format!(in alloc; "{height}")?)
}

/// How many parts a term has, and the printed text of the first.
fn parts(alloc: Global, term: &Term) -> Result<String, LineFault> {
    let text = printed(alloc, term)?;
    let (first, _) = text.split_once(" | ").unwrap_or((text.as_str(), ""));
    let count = term.parts().len();
    Ok(format!(in alloc; "{count} from {first}")?)
}

/// The shard of a channel.
fn shard(alloc: Global, term: &Term) -> Result<String, LineFault> {
    let shard = shard_of(alloc, term)?;
    Ok(format!(in alloc; "{shard}")?)
}

/// Prices of 1 for a step, an operator or method, and each byte, and no others.
pub fn weighed() -> Prices {
    Prices::new(PriceList {
        comm: 1,
        send: 0,
        receive: 0,
        name: 0,
        cases: 0,
        op: 1,
        byte: 1,
    })
}

/// The value or the first fault of a source under a cap, with its price. The fields are the cap and the source.
pub fn value(alloc: Global, prices: &Prices, fields: &str) -> Result<String, LineFault> {
    let mut fields = Fields::new(fields);
    let cap = fields.number();
    let term = read_term(alloc, fields.rest()?)?;
    evaluated(alloc, &term, prices, cap)
}

fn evaluated(alloc: Global, term: &Term, prices: &Prices, cap: u32) -> Result<String, LineFault>
    requires { IsClosed term.now }
{
    match evaluate(alloc, term, prices, u64::from(cap)) {
        Ok(done) => told_value(alloc, &done),
        Err(stop) => told_stop(alloc, stop),
    }
}

fn told_value(alloc: Global, done: &Priced<Term>) -> Result<String, LineFault> {
    let mut answer = Answer::new(alloc);
    answer.put_utf8_of(print_term(alloc, &done.value));
    answer.put(" for ");
    answer.put_number(done.price);
    answer.text()
}

fn told_stop(alloc: Global, stop: EvalStop) -> Result<String, LineFault> {
    let told = match stop {
        EvalStop::Fault { kind, price } => format!(in alloc; "{kind:?} for {price}"),
        stop => format!(in alloc; "{stop:?}"),
    };
    Ok(told?)
}

/// The value or the first fault of a term, whatever it costs.
fn alone(alloc: Global, term: &Term) -> Result<String, LineFault>
    requires { IsClosed term.now }
{
    match evaluate(alloc, term, &Prices::standard(), u64::from(u32::MAX)) {
        Ok(done) => printed(alloc, &done.value),
        Err(stop) => told_fault(alloc, stop),
    }
}

fn told_fault(alloc: Global, stop: EvalStop) -> Result<String, LineFault> {
    let told = match stop {
        EvalStop::Fault { kind, .. } => format!(in alloc; "{kind:?}"),
        stop => format!(in alloc; "{stop:?}"),
    };
    Ok(told?)
}

/// The printed text of a term, which is to spell the same term.
fn print(alloc: Global, term: &Term) -> Result<String, LineFault> {
    let mut text = printed(alloc, term)?;
    if !spells(alloc, text.as_str(), term) {
        text.push_str(", which spells another term")?;
    }
    Ok(text)
}

// Whether a text spells a term.
fn spells(alloc: Global, text: &str, term: &Term) -> bool {
    match read_bytes(alloc, text.as_bytes()) {
        Ok(again) => cmp_terms(term, &again).is_eq(),
        Err(_) => false,
    }
}

/// The printed texts of what the match of a term binds, with `; ` between them, and `none` where there is no match.
fn match_of(alloc: Global, term: &Term) -> Result<String, LineFault>
    requires { IsClosed term.now }
{
    match matched(alloc, term)? {
        None => Ok(String::from_str(alloc, "none")?),
        Some(values) => told_values(alloc, values.as_slice()),
    }
}

fn told_values(alloc: Global, values: &[Term]) -> Result<String, LineFault> {
    let mut answer = Answer::new(alloc);
    for value in values {
        if !answer.is_empty() {
            answer.put("; ");
        }
        answer.put_utf8_of(print_term(alloc, value));
    }
    answer.text()
}
