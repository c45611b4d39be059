//! The patterns of processes and of names.
ghost use Rattle.form_ends.specs.Chains.{joint_or_not};
ghost use Rattle.grammar.specs.Rules.{Sort};
ghost use Rattle.grammar.specs.Values.{patterns};
ghost use Rattle.process_descent.specs.Parsing.{Parses};
ghost use Rattle.token_cursor.specs.Reading.{of_name_pat, of_pat};

use crate::{form, pattern_atom, process};
use calculus::{NamePat, Pat};
use form_ends::{
    Chain, Joint, close, closed_form, composed_pattern, join, next_joint, plain_pattern,
    quoted_pattern, sent_pattern, skip_after, then_one_more, tuple_pattern,
};
use form_parts::part::{Bracket, Part};
use form_steps::step::{PartStep, PatternStep};
use form_steps::{
    begin_part, begin_pattern, close_bundle_pattern, close_same, first_of, member_patterns,
    negated, quoted_send_pattern, skip,
};
use grammar::{Fault, Mark};
use leaf_forms::{name_any, name_bound};
use token_cursor::Cursor;

/// PPar ::= POne { "|" POne }
#[cycle(parse)]
pub(crate) fn pattern_par(cursor: &mut Cursor<'_>, free: u32) -> Result<Part<Pat>, Fault>
    ensures { Parses free (Sort.Par patterns) of_pat cursor.old result cursor.new }
{
    let first = pattern_one(cursor, free);
    let mut parts = first_of(cursor.alloc, first);
    'each: while skip_after(cursor, &parts, Mark::Bar) {
        let next = pattern_one(cursor, free);
        parts = then_one_more(parts, next);
    }
    composed_pattern(parts)
}

/// POne ::= New | If | Contract | For | Match | Bundle | PName ( "!" | "!!" ) "(" [ PPar { "," PPar } ] ")" | PAlt
#[cycle(parse)]
pub(crate) fn pattern_one(cursor: &mut Cursor<'_>, free: u32) -> Result<Part<Pat>, Fault>
    ensures { Parses free Sort.POne of_pat cursor.old result cursor.new }
{
    match begin_part(cursor, free) {
        Ok(PartStep::Form(key)) => closed_form(cursor.alloc, form::form(cursor, key, free)),
        Ok(PartStep::Bundle(rights)) => {
            let body = pattern_par(cursor, free - 1);
            close_bundle_pattern(cursor, rights, body)
        }
        Ok(PartStep::Quoted) => {
            let below = free - 1;
            let quoted = pattern_joined(cursor, Some(Joint::Either), below);
            let channel = match quoted_send_pattern(cursor, quoted) {
                Ok(channel) => channel,
                Err(fault) => return Err(fault),
            };
            let args = pattern_atom::pattern_row(cursor, Bracket::Round, below);
            sent_pattern(channel, args)
        }
        Ok(PartStep::Send(sending)) => {
            let args = pattern_atom::pattern_row(cursor, Bracket::Round, free - 1);
            sent_pattern(sending, args)
        }
        Ok(PartStep::Alternative) => pattern_joined(cursor, Some(Joint::Either), free),
        Err(fault) => Err(fault),
    }
}

/// PAlt ::= PAnd { "\/" PAnd }, PAnd ::= PNot { "/\" PNot }, or PNot where nothing joins it
#[cycle(parse)]
pub(crate) fn pattern_joined(
    cursor: &mut Cursor<'_>,
    within: Option<Joint>,
    free: u32,
) -> Result<Part<Pat>, Fault>
    ensures { Parses free (joint_or_not within) of_pat cursor.old result cursor.new }
{
    let joint = match within {
        Some(joint) => joint,
        None => return pattern_not(cursor, free),
    };
    let inner = joint.inner();
    let mut left = pattern_joined(cursor, inner, free);
    'joined: loop {
        match next_joint(cursor, joint, left, free) {
            Chain::Ends(result) => return result,
            Chain::GoesOn(first, _) => {
                let right = pattern_joined(cursor, inner, free - 1);
                left = join(cursor.alloc, joint, first, right);
            }
        }
    }
}

/// PNot ::= "~" PNot | PAtom
#[cycle(parse)]
pub(crate) fn pattern_not(cursor: &mut Cursor<'_>, free: u32) -> Result<Part<Pat>, Fault>
    ensures { Parses free Sort.PNot of_pat cursor.old result cursor.new }
{
    match begin_pattern(cursor, free) {
        Ok(PatternStep::Plain(plain)) => plain_pattern(cursor, plain),
        Ok(PatternStep::Not) => {
            let arg = pattern_not(cursor, free - 1);
            negated(cursor.alloc, arg)
        }
        Ok(PatternStep::Same) => {
            let body = process::par(cursor, free - 1);
            close_same(cursor, body)
        }
        Ok(PatternStep::Group) => {
            let below = free - 1;
            let inner = pattern_par(cursor, below);
            if !skip_after(cursor, &inner, Mark::Comma) {
                return close(cursor, inner, Mark::Close);
            }
            let row = pattern_atom::pattern_row(cursor, Bracket::Round, below);
            tuple_pattern(inner, row)
        }
        Ok(PatternStep::Block) => pattern_atom::pattern_block(cursor, free),
        Ok(PatternStep::Members(bracket)) => {
            let sequence = pattern_atom::pattern_sequence(cursor, bracket, free - 1);
            member_patterns(bracket, sequence)
        }
        Err(fault) => Err(fault),
    }
}

/// PName ::= "_" | Word | "@" PAlt
#[cycle(parse)]
pub(crate) fn pattern_name(cursor: &mut Cursor<'_>, free: u32) -> Result<Part<NamePat>, Fault>
    ensures { Parses free Sort.PName of_name_pat cursor.old result cursor.new }
{
    if cursor.sees(Mark::Underscore) {
        return name_any(cursor);
    }
    if !skip(cursor, Mark::At) {
        return name_bound(cursor);
    }
    let quoted = pattern_joined(cursor, Some(Joint::Either), free);
    quoted_pattern(cursor.alloc, quoted)
}
