//! The groups of channels of receives.
ghost use Rattle.std.specs.Prelude.{All, IfOk};
ghost use Rattle.calculus.specs.Form.{IsClosed, a_bind};
ghost use Rattle.join_index.specs.Groups.{IsChannel};
ghost use Rattle.rho_term.specs.Parts.{bind_tree};
ghost use Rattle.row_search.specs.Choices.{AllBindsReady};
ghost use Rattle.match_targets.specs.Targets.{Ready};

use crate::reading::{read_rows, read_term};
use join_index::JoinIndex;
use name_seed::EMPTY_ROOT;
use rho_printer::print_term;
use rho_term::{Op, Term, TermBind};
use space_row::Row;
use std::alloc::{AllocError, Global};
use table_lines::{Answer, LineFault, two_sources, unescape};
use term_encoder::code_len;

/// The most bytes of a channel's code.
const MOST_BYTES: u64 = 4_294_967_295;

/// Adds the groups of the receives of a source to an index, and asks it for those that hold a channel: its source and the other have
/// ` <=> ` between them.
pub fn groups_with(alloc: Global, fields: &str) -> Result<String, LineFault> {
    let (channel, source) = two_sources(fields)?;
    let channel = read_term(alloc, unescape(alloc, channel)?.as_slice())?;
    let rows = read_rows(alloc, &EMPTY_ROOT, source)?;
    told_short(alloc, rows.as_slice(), &channel)
}

// The groups of rows that hold a channel, where its code is not too long.
fn told_short(alloc: Global, rows: &[Row], channel: &Term) -> Result<String, LineFault>
    requires { IsClosed channel.now }
{
    if code_len(channel) > MOST_BYTES {
        return Err(LineFault::Field);
    }
    told(alloc, &index_of(alloc, rows)?, channel)
}

// The groups of rows.
fn index_of(alloc: Global, rows: &[Row]) -> Result<JoinIndex, AllocError> {
    let mut index = JoinIndex::new(alloc);
    for row in rows {
        add_group(alloc, &mut index, row)?;
    }
    Ok(index)
}

// Adds the group of a row, where it is a receive.
fn add_group(alloc: Global, index: &mut JoinIndex, row: &Row) -> Result<(), AllocError> {
    match row.op() {
        Op::Produce { .. } => Ok(()),
        Op::Consume { binds, .. } => {
            let channels = channels_of(alloc, binds)?;
            index.add(alloc, channels.as_slice())
        }
    }
}

// A copy of the channel of a bind.
fn channel_of(alloc: Global, bind: &TermBind) -> Result<Term, AllocError>
    requires { Ready a_bind (bind_tree bind.now) }
    ensures { IfOk result IsChannel }
{
    bind.channel.copy(alloc)
}

// The channels of binds.
fn channels_of(alloc: Global, binds: &[TermBind]) -> Result<Vec<Term>, AllocError>
    requires { AllBindsReady binds.now }
    ensures { IfOk result (λ v. All IsChannel v.items) }
{
    let mut channels = Vec::new(alloc);
    for bind in binds {
        channels.push(channel_of(alloc, bind)?)?;
    }
    Ok(channels)
}

// The groups that hold a channel, each in brackets.
fn told(alloc: Global, index: &JoinIndex, channel: &Term) -> Result<String, LineFault>
    requires { IsChannel channel.now }
{
    let groups = index.groups_of(alloc, channel)?;
    let mut answer = Answer::new(alloc);
    for group in groups.as_slice() {
        put_terms(alloc, &mut answer, group.as_slice());
    }
    answer.text()
}

/// Adds the printed texts of terms in brackets.
pub fn put_terms(alloc: Global, answer: &mut Answer, terms: &[Term]) {
    let mut before = "[";
    for term in terms {
        answer.put(before);
        answer.put_utf8_of(print_term(alloc, term));
        before = ", ";
    }
    answer.put(if terms.is_empty() { "[]" } else { "]" });
}
