//! The channels of sends.
ghost use Rattle.form_steps.specs.Parts.{after_channel, after_channel_pattern, after_quoted, after_quoted_pattern, after_sent};
ghost use Rattle.grammar.specs.Grammar.{rule};
ghost use Rattle.grammar.specs.Productions.{Prod};
ghost use Rattle.grammar.specs.Rules.{Sort, last};
ghost use Rattle.grammar.specs.Values.{Side, spelt};
ghost use Rattle.calculus.specs.Written.{Written};
ghost use Rattle.grammar.specs.declared.dialect.Dialect.TheVariants.{Tutorial};
ghost use Rattle.token_cursor.specs.Reading.{of_pat, of_proc};
ghost use Rattle.form_steps.specs.Handing.{ContinuesFrom};
ghost use Rattle.token_cursor.specs.Cursors.{ContinuesWithin, Shortens};
ghost use Rattle.std.specs.Prelude.{◌≡◌, ◌<◌, ◌≤◌, ℕ, IfOk, length};

use crate::next_mark::then_mark;
use crate::step::Sending;
use calculus::{Name, NamePat, Pat, Proc};
use form_parts::part::Part;
use form_parts::parts;
use grammar::{Fault, Mark};
use syntax_forms::{pattern_forms, process_forms};
use token_cursor::Cursor;

/// A variable, the mark of a send, which opens it, and a parenthesis.
pub(crate) fn begin_send(cursor: &mut Cursor<'_>, free: u32) -> Result<Sending<Name>, Fault>
    ensures reads { ContinuesWithin free cursor.old (rule Tutorial Prod.two_word) after_channel result cursor.new }
    ensures room { IfOk result (λ s. s.channel.height < free) }
    ensures shorter { Shortens cursor.old result cursor.new }
{
    match cursor.word() {
        Ok(name) => begin_sent(cursor, process_forms::channel(name), free),
        Err(fault) => Err(fault),
    }
}

/// The mark of a send and a parenthesis, after the channel that was made, or the fault in its place.
fn send_on<T: Drop>(
    cursor: &mut Cursor<'_>,
    channel: Result<Part<T>, Fault>,
) -> Result<Sending<T>, Fault>
    ensures reads { (side : Side) (written : T → Written) → ContinuesFrom cursor.old channel
        (λ n. last (Sort.SentTail side (spelt (written n.value) n.height))) result (after_sent side written) cursor.new }
    ensures room { (n : ℕ) → IfOk channel (λ p. p.height < n) → IfOk result (λ s. s.channel.height < n) }
    ensures shorter { length cursor.new.rest.now ≤ length cursor.old.rest.now }
{
    match channel {
        Ok(channel) => {
            let persistent = cursor.sees(Mark::DoubleBang);
            let marked = cursor.expect_bang(persistent);
            match then_mark(cursor, marked, Mark::Open) {
                Ok(()) => Ok(Sending {
                    channel,
                    persistent,
                }),
                Err(fault) => parts::give_up(channel, fault),
            }
        }
        Err(fault) => Err(fault),
    }
}

/// The send on the name that quotes the process that was read, up to its arguments.
pub fn quoted_send(
    cursor: &mut Cursor<'_>,
    quoted: Result<Part<Proc>, Fault>,
) -> Result<Sending<Name>, Fault>
    ensures reads { ContinuesFrom cursor.old quoted (λ p. after_quoted (of_proc p)) result after_channel cursor.new }
    ensures room { (n : ℕ) → IfOk quoted (λ p. p.height < n) → IfOk result (λ s. s.channel.height < n) }
    ensures shorter { length cursor.new.rest.now ≤ length cursor.old.rest.now }
{
    match quoted {
        Ok(quoted) => {
            let channel = process_forms::quote(cursor.alloc, quoted);
            send_on(cursor, channel)
        }
        Err(fault) => Err(fault),
    }
}

/// A variable that is bound here, the mark of a send, which opens it, and a parenthesis.
pub(crate) fn begin_send_pattern(
    cursor: &mut Cursor<'_>,
    free: u32,
) -> Result<Sending<NamePat>, Fault>
    ensures reads { ContinuesWithin free cursor.old (rule Tutorial Prod.pone_word) after_channel_pattern result cursor.new }
    ensures room { IfOk result (λ s. s.channel.height < free) }
    ensures shorter { Shortens cursor.old result cursor.new }
{
    match cursor.word() {
        Ok(name) => begin_sent(cursor, pattern_forms::bound_channel(name), free),
        Err(fault) => Err(fault),
    }
}

/// `_`, the mark of a send, which opens it, and a parenthesis.
pub(crate) fn begin_any_send(cursor: &mut Cursor<'_>, free: u32) -> Result<Sending<NamePat>, Fault>
    ensures reads { ContinuesWithin free cursor.old (rule Tutorial Prod.pone_any) after_channel_pattern result cursor.new }
    ensures room { IfOk result (λ s. s.channel.height < free) }
    ensures shorter { Shortens cursor.old result cursor.new }
{
    match cursor.expect(Mark::Underscore) {
        Ok(()) => begin_sent(cursor, pattern_forms::any_channel(), free),
        Err(fault) => Err(fault),
    }
}

/// The mark of a send, which opens it, and a parenthesis, after this channel.
fn begin_sent<T: Drop>(
    cursor: &mut Cursor<'_>,
    channel: Part<T>,
    free: u32,
) -> Result<Sending<T>, Fault>
    requires { channel.height ≡ 0 }
    ensures reads { (side : Side) (written : T → Written) → ContinuesWithin free cursor.old
        (last (Sort.Sent side (spelt (written channel.value) channel.height))) (after_sent side written) result cursor.new }
    ensures room { IfOk result (λ s. s.channel.height < free) }
    ensures shorter { Shortens cursor.old result cursor.new }
{
    let persistent = cursor.sees(Mark::DoubleBang);
    let marked = cursor.opens_bang(persistent, free);
    match then_mark(cursor, marked, Mark::Open) {
        Ok(()) => Ok(Sending {
            channel,
            persistent,
        }),
        Err(fault) => parts::give_up(channel, fault),
    }
}

/// The send on the pattern of a name that quotes the pattern that was read, up to its arguments.
pub fn quoted_send_pattern(
    cursor: &mut Cursor<'_>,
    quoted: Result<Part<Pat>, Fault>,
) -> Result<Sending<NamePat>, Fault>
    ensures reads { ContinuesFrom cursor.old quoted (λ p. after_quoted_pattern (of_pat p)) result after_channel_pattern cursor.new }
    ensures room { (n : ℕ) → IfOk quoted (λ p. p.height < n) → IfOk result (λ s. s.channel.height < n) }
    ensures shorter { length cursor.new.rest.now ≤ length cursor.old.rest.now }
{
    match quoted {
        Ok(quoted) => {
            let channel = pattern_forms::quote_pat(cursor.alloc, quoted);
            send_on(cursor, channel)
        }
        Err(fault) => Err(fault),
    }
}
