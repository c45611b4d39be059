//! Cases of terms that no source spells: those of great height, copies, and a tuple without members.
use crate::maker::Maker;
use calculus::{Digest, Ground};
use code_order::make_par;
use rho_term::{Op, Part, PatPart, Term, TermPat};
use std::alloc::{AllocError, Global};
use substituted_sizes::put_size;
use substitution::{renumber_body, substitute};
use table_lines::{Case, LineFault, put_cases};
use term_encoder::{code_len, encode_term};

fn deep_lists_are_made(make: &mut Maker) -> Case {
    let mut case = Case::new();
    case.must(make.in_lists(400).height() == 400);
    case
}

// Whether values put into a body come to this height, as is foretold, and to the length that is foretold.
fn must_come_to(case: &mut Case, make: &mut Maker, body: &Term, values: &[Term], height: u32) {
    let made = substitute(make.alloc, body, values);
    let term = make.kept(made);
    case.must(term.height() == height);
    case.must(put_size(body, values) == (height, code_len(&term)));
}

fn deep_values_are_put_in(make: &mut Maker) -> Case {
    let mut case = Case::new();
    let value = make.in_lists(400);
    let values = make.list(value);
    let first = make.one(Part::Var(0));
    let second = make.one(Part::Var(0));
    let mut items = make.list(first);
    make.add(&mut items, second);
    let body = make.one(Part::List(items));
    must_come_to(&mut case, make, &body, values.as_slice(), 401);
    case
}

fn values_are_put_into_deep_sets(make: &mut Maker) -> Case {
    let mut case = Case::new();
    let variable = make.one(Part::Var(0));
    let body = make.in_sets(variable);
    let five = make.int(5);
    let value = make.in_sets(five);
    let values = make.list(value);
    must_come_to(&mut case, make, &body, values.as_slice(), 600);
    case
}

fn deep_lists_are_copied(make: &mut Maker) -> Case {
    let mut case = Case::new();
    let mut term = make.int(1);
    for _ in 0..400 {
        let members = make.list(term);
        let made = Term::from_part(make.alloc, Part::List(members));
        term = make.kept(made);
    }
    let copy = term.copy(make.alloc);
    let copy = make.kept(copy);
    case.must(copy.height() == 400);
    case.must(copy.parts().len() == 1);
    case
}

fn copy_bind(make: &mut Maker, case: &mut Case) {
    let bind = make.bind();
    match bind.copy(make.alloc) {
        Ok(copy) => case.must(copy.pats.len() == 1),
        Err(_) => make.lacks_memory = true,
    }
}

fn is_fresh(part: &Part) -> bool {
    matches!(part, Part::Fresh(_))
}

fn copy_fresh(alloc: Global, case: &mut Case) -> Result<(), AllocError> {
    let fresh = Box::new(alloc, Part::Fresh(Digest([7; 32])))?;
    let part = Box::new(alloc, fresh.copy(alloc)?)?;
    case.must(is_fresh(&part));
    Ok(())
}

fn copy_part(make: &mut Maker, case: &mut Case) {
    let made = Term::from_part(make.alloc, Part::List(Vec::new(make.alloc)));
    let term = make.kept(made);
    case.must(term.into_parts().len() == 1);
    let done = copy_fresh(make.alloc, case);
    make.take_up(done);
}

fn copied_pattern(alloc: Global) -> Result<TermPat, AllocError> {
    let mut parts = Vec::new(alloc);
    parts.push(PatPart::Wild)?;
    TermPat::new(parts).copy(alloc)
}

fn copy_pattern(make: &mut Maker, case: &mut Case) {
    match copied_pattern(make.alloc) {
        Ok(copy) => case.must(copy.parts().len() == 1),
        Err(_) => make.lacks_memory = true,
    }
}

fn is_produce(op: &Op) -> bool {
    matches!(op, Op::Produce { .. })
}

fn make_operation(alloc: Global, case: &mut Case, channel: Term) -> Result<(), AllocError> {
    let op = Op::Produce {
        id: Digest([0; 32]),
        channel,
        args: Vec::new(alloc),
        persistent: false,
    };
    let op = Box::new(alloc, op)?;
    case.must(is_produce(&op));
    Ok(())
}

fn copies_are_made(make: &mut Maker) -> Case {
    let mut case = Case::new();
    copy_bind(make, &mut case);
    copy_part(make, &mut case);
    copy_pattern(make, &mut case);
    let channel = make.int(1);
    let done = make_operation(make.alloc, &mut case, channel);
    make.take_up(done);
    case
}

// The digits of the code of a term must be these.
fn must_have_code(case: &mut Case, make: &mut Maker, term: &Term, digits: &str) {
    let code = hex_code(make.alloc, term);
    match code {
        Ok(spelt) => case.must(spelt.as_str() == digits),
        Err(_) => make.lacks_memory = true,
    }
}

fn hex_code(alloc: Global, term: &Term) -> Result<String, AllocError> {
    hex::encode(alloc, encode_term(alloc, term)?.as_slice())
}

// The code is that of an independent implementation of the format.
fn a_tuple_without_members_stands_after_a_number(make: &mut Maker) -> Case {
    let mut case = Case::new();
    let members = Vec::new(make.alloc);
    let mut parts = make.list(Part::Tuple(members));
    make.add(&mut parts, Part::Ground(Ground::Int(1)));
    let made = make_par(make.alloc, parts);
    let term = make.kept(made);
    let digits = "000000021180000000000000012100000000";
    must_have_code(&mut case, make, &term, digits);
    case
}

// The term in which the first two variables change sides must have a code of these digits.
fn must_become(case: &mut Case, make: &mut Maker, body: &Term, digits: &str) {
    let made = renumber_body(make.alloc, body, &[1, 0]);
    let term = make.kept(made);
    must_have_code(case, make, &term, digits);
}

fn variables_are_numbered_anew(make: &mut Maker) -> Case {
    let mut case = Case::new();
    // @3!(a, b), of which b was bound before a and is now bound after it
    let body = make.variables_sent(&[0, 1]);
    let digits =
        "0000000130000000000111800000000000000300000002000000011600000001000000011600000000";
    must_become(&mut case, make, &body, digits);
    // for (@c <- @1) { @3!(a, b, c) }
    let sent = make.variables_sent(&[1, 2, 0]);
    let body = make.received(sent);
    let digits =
        "0000000131000000000100000001118000000000000001000000010000000150000000000130000000000111800000000000000300000003000000011600000002000000011600000001000000011600000000";
    must_become(&mut case, make, &body, digits);
    case
}

/// Puts the line of each case.
pub fn put_all(alloc: Global, told: &mut String) -> Result<(), LineFault> {
    let mut make = Maker {
        alloc,
        lacks_memory: false,
    };
    let cases = [
        ("deep_lists_are_made", deep_lists_are_made(&mut make)),
        ("deep_values_are_put_in", deep_values_are_put_in(&mut make)),
        (
            "values_are_put_into_deep_sets",
            values_are_put_into_deep_sets(&mut make),
        ),
        ("deep_lists_are_copied", deep_lists_are_copied(&mut make)),
        ("copies_are_made", copies_are_made(&mut make)),
        (
            "a_tuple_without_members_stands_after_a_number",
            a_tuple_without_members_stands_after_a_number(&mut make),
        ),
        (
            "variables_are_numbered_anew",
            variables_are_numbered_anew(&mut make),
        ),
    ];
    if make.lacks_memory {
        return Err(LineFault::NoMemory);
    }
    put_cases(alloc, told, cases.as_slice())
}
