//! What sources, and bodies of receives under values, offer.
ghost use Rattle.std.specs.Prelude.{All, IfOk};
ghost use Rattle.calculus.specs.Form.{IsClosed};
ghost use Rattle.calculus.specs.Shape.{only};
ghost use Rattle.rho_term.specs.Parts.{part_tree};

use crate::texts::read_term;
use calculus::{Digest, Kind};
use name_seed::{Seed, bytes_digest};
use price_table::{EvalStop, Priced, Prices};
use rho_term::{Op, Part, Term, TermBind};
use std::alloc::{AllocError, Global};
use table_lines::{Answer, Fields, LineFault, two_sources, unescape};
use term_encoder::{encode_part, encode_term};
use unfold::{unfold, unfold_body};

/// The price of what a source offers to the empty state under the standard prices, and the codes of its rows; or its
/// first fault.
pub fn offers(alloc: Global, source: &str) -> Result<String, LineFault> {
    let seed = start_seed(alloc, source)?;
    let term = read_term(alloc, source)?;
    told(
        alloc,
        unfold(alloc, &term, &seed, &Prices::standard(), 1_000_000),
    )
}

/// The same of the body of a receive with values in place of its variables, under a cap. The seed is that of the
/// receive's source. The fields are the cap, and the sources of the receive and of the values with ` <=> ` between them.
pub fn body_offers(alloc: Global, fields: &str) -> Result<String, LineFault> {
    let mut fields = Fields::new(fields);
    let cap = fields.number();
    let (receive, values) = two_sources(fields.rest()?)?;
    let seed = start_seed(alloc, receive)?;
    let receive = read_term(alloc, receive)?;
    let values = read_values(alloc, values)?;
    receive_offers(alloc, &receive, values.as_slice(), &seed, cap)
}

// The seed of a source from the empty state.
fn start_seed(alloc: Global, source: &str) -> Result<Seed, LineFault> {
    let digest = bytes_digest(unescape(alloc, source)?.as_slice());
    Ok(Seed::start(&Digest([0; 32]), &digest))
}

/// The terms of sources with ` <=> ` between them.
pub fn read_values(alloc: Global, sources: &str) -> Result<Vec<Term>, LineFault>
    ensures { IfOk result (λ v. All IsClosed v.items) }
{
    let mut values = Vec::new(alloc);
    for source in sources.split(" <=> ") {
        values.push(read_term(alloc, source)?)?;
    }
    Ok(values)
}

fn receive_offers(
    alloc: Global,
    receive: &Term,
    values: &[Term],
    seed: &Seed,
    cap: u32,
) -> Result<String, LineFault>
    requires receive { IsClosed receive.now }
    requires values { All IsClosed values.now }
{
    let parts = receive.parts();
    if parts.len() != 1 {
        return Err(LineFault::Field);
    }
    part_offers(alloc, &parts[0], values, seed, cap)
}

fn part_offers(
    alloc: Global,
    receive: &Part,
    values: &[Term],
    seed: &Seed,
    cap: u32,
) -> Result<String, LineFault>
    requires receive { IsClosed (only (part_tree receive.now)) }
    requires values { All IsClosed values.now }
{
    let Part::Receive { body, .. } = receive else {
        return Err(LineFault::Field);
    };
    told(
        alloc,
        unfold_body(
            alloc,
            body,
            values,
            seed,
            &Prices::standard(),
            u64::from(cap),
        ),
    )
}

// A price and the codes of rows, or the first fault.
fn told(alloc: Global, done: Result<Priced<Vec<Op>>, EvalStop>) -> Result<String, LineFault> {
    match done {
        Ok(done) => told_rows(alloc, done),
        Err(stop) => Ok(format!(in alloc; "{stop:?}")?),
    }
}

fn told_rows(alloc: Global, done: Priced<Vec<Op>>) -> Result<String, LineFault> {
    let mut answer = Answer::new(alloc);
    answer.put("price ");
    answer.put_number(done.price);
    for row in done.value {
        put_row(alloc, &mut answer, row);
    }
    answer.text()
}

fn put_row(alloc: Global, answer: &mut Answer, row: Op) {
    match row {
        Op::Produce {
            id,
            channel,
            args,
            persistent,
        } => {
            put_id(answer, " 01", &id);
            put_send(alloc, answer, &channel, args.as_slice(), persistent);
        }
        Op::Consume {
            id,
            kind,
            binds,
            body,
        } => {
            put_id(answer, " 02", &id);
            put_receive(alloc, answer, kind, binds, body);
        }
    }
}

fn put_id(answer: &mut Answer, tag: &str, id: &Digest) {
    answer.put(tag);
    answer.put_hex(id.0.as_slice());
}

// The code of a receive without its tag.
fn put_receive(alloc: Global, answer: &mut Answer, kind: Kind, binds: Vec<TermBind>, body: Term) {
    let part = Part::Receive { kind, binds, body };
    let code = encode_part(alloc, &part);
    put_untagged(answer, let_go(part, code));
}

// The second value, where the first is no longer wanted.
fn let_go<T: Drop, U>(_value: T, kept: U) -> U {
    kept
}

fn put_untagged(answer: &mut Answer, code: Result<Vec<u8>, AllocError>) {
    match code {
        Ok(code) => put_rest(answer, code.as_slice()),
        Err(_) => answer.lack_memory(),
    }
}

fn put_rest(answer: &mut Answer, code: &[u8]) {
    if let Some((_, rest)) = code.split_first() {
        answer.put_hex(rest);
    }
}

fn put_send(alloc: Global, answer: &mut Answer, channel: &Term, args: &[Term], persistent: bool) {
    answer.put_hex_of(encode_term(alloc, channel));
    answer.put(if persistent { "01" } else { "00" });
    let count = (args.len() as u64).to_be_bytes();
    answer.put_hex(&count[4..]);
    for arg in args {
        answer.put_hex_of(encode_term(alloc, arg));
    }
}
