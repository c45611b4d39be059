//! Forms of one constituent.
ghost use Rattle.form_steps.specs.Parts.{bundle_end};
ghost use Rattle.form_steps.specs.Steps.{member_patterns_of, members_of, same_end};
ghost use Rattle.calculus.specs.Meaning.{pat_written, proc_written, row_of};
ghost use Rattle.grammar.specs.Rules.{done};
ghost use Rattle.grammar.specs.Values.{drop_of, not_of, opened, patterns, processes, quote_of};
ghost use Rattle.token_cursor.specs.Reading.{of_pat, of_proc, of_row, of_sequence, sequence_written};
ghost use Rattle.form_parts.specs.Forms.{HasTree};
ghost use Rattle.form_steps.specs.Handing.{Completes, CompletesAt};
ghost use Rattle.std.specs.Prelude.{◌≡◌, ◌+◌, ◌<◌, ◌≤◌, ◌^◌, ℕ, IfOk, length, map};

use crate::next_mark::then_mark;
use calculus::{Pat, Proc, Rights};
use form_parts::part::{Bracket, Part, Sequence};
use grammar::{Fault, Mark};
use std::alloc::Global;
use syntax_forms::{pattern_forms, process_forms};
use token_cursor::Cursor;

/// The list or the set of the members that were read.
pub fn members(bracket: Bracket, row: Result<Part<Vec<Proc>>, Fault>) -> Result<Part<Proc>, Fault>
    requires { IfOk row (λ p. p.height + 1 < 2 ^ 32) }
    ensures reads { Completes row (λ p. done (opened (members_of bracket (of_row p).tree) p.height)) of_proc result }
    ensures room { (n : ℕ) → IfOk row (λ p. p.height < n) → IfOk result (λ p. p.height ≤ n) }
{
    match row {
        Ok(row) => match bracket {
            Bracket::Square => Ok(process_forms::list(row)),
            Bracket::Round => Ok(process_forms::set(row)),
        },
        Err(fault) => Err(fault),
    }
}

/// The pattern of a list or a set of the members that were read.
pub fn member_patterns(
    bracket: Bracket,
    sequence: Result<Part<Sequence>, Fault>,
) -> Result<Part<Pat>, Fault>
    requires { IfOk sequence (λ p. p.height + 1 < 2 ^ 32) }
    ensures reads { Completes sequence (λ p. done (opened (member_patterns_of bracket (of_sequence p).tree) p.height)) of_pat result }
    ensures room { (n : ℕ) → IfOk sequence (λ p. p.height < n) → IfOk result (λ p. p.height ≤ n) }
{
    match sequence {
        Ok(sequence) => match bracket {
            Bracket::Square => Ok(pattern_forms::list_pat(sequence)),
            Bracket::Round => Ok(pattern_forms::set_pat(sequence)),
        },
        Err(fault) => Err(fault),
    }
}

/// The process that was read, quoted and dropped.
pub fn dropped_quote(alloc: Global, quoted: Result<Part<Proc>, Fault>) -> Result<Part<Proc>, Fault>
    requires { IfOk quoted (λ p. p.height + 1 < 2 ^ 32) }
    ensures reads { Completes quoted (λ p. done (opened (drop_of (quote_of (of_proc p).tree)) p.height)) of_proc result }
    ensures room { (n : ℕ) → IfOk quoted (λ p. p.height < n) → IfOk result (λ p. p.height ≤ n) }
{
    match quoted {
        Ok(quoted) => match process_forms::quote(alloc, quoted) {
            Ok(name) => Ok(process_forms::dropped_quote(name)),
            Err(fault) => Err(fault),
        },
        Err(fault) => Err(fault),
    }
}

/// The pattern that takes what the one that was read doesn't take.
pub fn negated(alloc: Global, arg: Result<Part<Pat>, Fault>) -> Result<Part<Pat>, Fault>
    requires { IfOk arg (λ p. p.height + 1 < 2 ^ 32) }
    ensures reads { Completes arg (λ p. done (opened (not_of (of_pat p).tree) p.height)) of_pat result }
    ensures room { (n : ℕ) → IfOk arg (λ p. p.height < n) → IfOk result (λ p. p.height ≤ n) }
{
    match arg {
        Ok(arg) => pattern_forms::not_pat(alloc, arg),
        Err(fault) => Err(fault),
    }
}

/// The end of a bundle of the process that was read.
pub fn close_bundle(
    cursor: &mut Cursor<'_>,
    rights: Rights,
    body: Result<Part<Proc>, Fault>,
) -> Result<Part<Proc>, Fault>
    requires { IfOk body (λ p. p.height + 1 < 2 ^ 32) }
    ensures reads { CompletesAt cursor.old body (λ p. bundle_end processes rights (of_proc p)) of_proc result cursor.new }
    ensures room { (n : ℕ) → IfOk body (λ p. p.height < n) → IfOk result (λ p. p.height ≤ n) }
    ensures shorter { length cursor.new.rest.now ≤ length cursor.old.rest.now }
{
    match then_mark(cursor, body, Mark::CloseBrace) {
        Ok(inner) => process_forms::bundle(cursor.alloc, rights, inner),
        Err(fault) => Err(fault),
    }
}

/// The end of a bundle of the pattern that was read.
pub fn close_bundle_pattern(
    cursor: &mut Cursor<'_>,
    rights: Rights,
    body: Result<Part<Pat>, Fault>,
) -> Result<Part<Pat>, Fault>
    requires { IfOk body (λ p. p.height + 1 < 2 ^ 32) }
    ensures reads { CompletesAt cursor.old body (λ p. bundle_end patterns rights (of_pat p)) of_pat result cursor.new }
    ensures room { (n : ℕ) → IfOk body (λ p. p.height < n) → IfOk result (λ p. p.height ≤ n) }
    ensures shorter { length cursor.new.rest.now ≤ length cursor.old.rest.now }
{
    match then_mark(cursor, body, Mark::CloseBrace) {
        Ok(inner) => pattern_forms::bundle_pat(cursor.alloc, rights, inner),
        Err(fault) => Err(fault),
    }
}

/// The end of a process that was read and is to be the same.
pub fn close_same(
    cursor: &mut Cursor<'_>,
    body: Result<Part<Proc>, Fault>,
) -> Result<Part<Pat>, Fault>
    requires { IfOk body (λ p. p.height + 1 < 2 ^ 32) }
    ensures reads { CompletesAt cursor.old body (λ p. same_end (of_proc p)) of_pat result cursor.new }
    ensures room { (n : ℕ) → IfOk body (λ p. p.height < n) → IfOk result (λ p. p.height ≤ n) }
    ensures shorter { length cursor.new.rest.now ≤ length cursor.old.rest.now }
{
    match then_mark(cursor, body, Mark::CloseBrace) {
        Ok(inner) => pattern_forms::same(cursor.alloc, inner),
        Err(fault) => Err(fault),
    }
}
