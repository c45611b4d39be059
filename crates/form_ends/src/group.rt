//! Groups, tuples and blocks.
ghost use Rattle.form_ends.specs.Reading.{after_first};
ghost use Rattle.form_steps.specs.Handing.{CompletesAt};
ghost use Rattle.calculus.specs.Written.{Written};
ghost use Rattle.grammar.specs.Rules.{Sort, done, round, sign};
ghost use Rattle.grammar.specs.Terminals.{Terminal};
ghost use Rattle.grammar.specs.Values.{opened, patterns, processes, spelt};
ghost use Rattle.token_cursor.specs.Reading.{Gives, Makes, of_pat, of_pat_row, of_proc, of_row};
ghost use Rattle.std.specs.Prelude.{◌≡◌, ◌+◌, ◌-◌, ◌<◌, ◌≤◌, ◌^◌, ℕ, IfOk, List, length};

use calculus::{Pat, Proc};
use form_parts::part::Part;
use form_parts::parts;
use form_steps::then_mark;
use grammar::{Fault, Mark};
use syntax_forms::{pattern_forms, process_forms};
use token_cursor::Cursor;

/// What was read in parentheses or braces, and the mark that closes them.
pub fn close<T: Drop>(
    cursor: &mut Cursor<'_>,
    inner: Result<Part<T>, Fault>,
    mark: Mark,
) -> Result<Part<T>, Fault>
    requires { IfOk inner (λ p. p.height + 1 < 2 ^ 32) }
    ensures reads { (written : T → Written) → CompletesAt cursor.old inner (λ p. sign mark (done (opened (written p.value) p.height)))
        (λ p. spelt (written p.value) p.height) result cursor.new }
    ensures room { (n : ℕ) → IfOk inner (λ p. p.height < n) → IfOk result (λ p. p.height ≤ n) }
    ensures shorter { length cursor.new.rest.now ≤ length cursor.old.rest.now }
{
    match then_mark(cursor, inner, mark) {
        Ok(inner) => {
            let height = inner.height + 1;
            Ok(Part {
                value: inner.value,
                height,
            })
        }
        Err(fault) => Err(fault),
    }
}

/// The tuple of the member that was read and of those that were read after it.
pub fn tuple(
    first: Result<Part<Proc>, Fault>,
    row: Result<Part<Vec<Proc>>, Fault>,
) -> Result<Part<Proc>, Fault>
    requires first { IfOk first (λ p. p.height + 1 < 2 ^ 32) }
    requires row { IfOk row (λ p. p.height + 1 < 2 ^ 32) }
    ensures reads { (a : Part Proc) → first ≡ Ok a → (free : ℕ) (ts us : List Terminal) →
        Gives (free - 1) (Sort.Row processes round) of_row ts row us → Makes free (after_first processes (of_proc a)) of_proc ts result us }
    ensures room { (n : ℕ) → IfOk first (λ p. p.height < n) → IfOk row (λ p. p.height < n) → IfOk result (λ p. p.height ≤ n) }
{
    match first {
        Ok(first) => tuple_from(first, row),
        Err(fault) => Err(fault),
    }
}

/// The tuple of this member and those that were read after it.
fn tuple_from(first: Part<Proc>, row: Result<Part<Vec<Proc>>, Fault>) -> Result<Part<Proc>, Fault>
    requires first { first.height + 1 < 2 ^ 32 }
    requires row { IfOk row (λ p. p.height + 1 < 2 ^ 32) }
    ensures reads { (free : ℕ) (ts us : List Terminal) → Gives (free - 1) (Sort.Row processes round) of_row ts row us →
        Makes free (after_first processes (of_proc first)) of_proc ts result us }
    ensures room { (n : ℕ) → first.height < n → IfOk row (λ p. p.height < n) → IfOk result (λ p. p.height ≤ n) }
{
    match row {
        Ok(row) => process_forms::tuple(first, row),
        Err(fault) => parts::give_up(first, fault),
    }
}

/// The pattern of a tuple of the member that was read and of those that were read after it.
pub fn tuple_pattern(
    first: Result<Part<Pat>, Fault>,
    row: Result<Part<Vec<Pat>>, Fault>,
) -> Result<Part<Pat>, Fault>
    requires first { IfOk first (λ p. p.height + 1 < 2 ^ 32) }
    requires row { IfOk row (λ p. p.height + 1 < 2 ^ 32) }
    ensures reads { (a : Part Pat) → first ≡ Ok a → (free : ℕ) (ts us : List Terminal) →
        Gives (free - 1) (Sort.Row patterns round) of_pat_row ts row us → Makes free (after_first patterns (of_pat a)) of_pat ts result us }
    ensures room { (n : ℕ) → IfOk first (λ p. p.height < n) → IfOk row (λ p. p.height < n) → IfOk result (λ p. p.height ≤ n) }
{
    match first {
        Ok(first) => tuple_pattern_from(first, row),
        Err(fault) => Err(fault),
    }
}

/// The pattern of a tuple of this member and those that were read after it.
fn tuple_pattern_from(
    first: Part<Pat>,
    row: Result<Part<Vec<Pat>>, Fault>,
) -> Result<Part<Pat>, Fault>
    requires first { first.height + 1 < 2 ^ 32 }
    requires row { IfOk row (λ p. p.height + 1 < 2 ^ 32) }
    ensures reads { (free : ℕ) (ts us : List Terminal) → Gives (free - 1) (Sort.Row patterns round) of_pat_row ts row us →
        Makes free (after_first patterns (of_pat first)) of_pat ts result us }
    ensures room { (n : ℕ) → first.height < n → IfOk row (λ p. p.height < n) → IfOk result (λ p. p.height ≤ n) }
{
    match row {
        Ok(row) => pattern_forms::tuple_pat(first, row),
        Err(fault) => parts::give_up(first, fault),
    }
}
