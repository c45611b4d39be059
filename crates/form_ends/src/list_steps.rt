//! Lists of constituents that are read one after another, up to the first fault.
ghost use Rattle.calculus.specs.Meaning.{name_pat_written, pat_written, proc_written};
ghost use Rattle.form_ends.specs.Reading.{Appends};
ghost use Rattle.form_steps.specs.Handing.{Completes, CompletesAt, HandsOnPart};
ghost use Rattle.grammar.specs.Descent.{Takes};
ghost use Rattle.grammar.specs.Grammar.{rule};
ghost use Rattle.grammar.specs.Productions.{Prod};
ghost use Rattle.grammar.specs.Rules.{Sort, done, last};
ghost use Rattle.grammar.specs.Terminals.{sees};
ghost use Rattle.grammar.specs.Values.{par_of, patterns, processes, spelt};
ghost use Rattle.grammar.specs.declared.dialect.Dialect.TheVariants.{Tutorial};
ghost use Rattle.grammar.specs.declared.mark.Mark.TheVariants as marks;
ghost use Rattle.token_cursor.specs.Meaning.{view};
ghost use Rattle.token_cursor.specs.Reading.{bracket_of, of_left, of_pat, of_proc, of_sequence, pairs_written, pat_pairs_written, sees_member};
ghost use Rattle.std.specs.Prelude.{◌≡◌, ◌∷◌, ◌+◌, ◌<◌, ◌≤◌, ◌^◌, ℕ, [], IfOk, IsOk, OnOk, false, length, map, max, true};

use calculus::{NamePat, Pat, Proc};
use form_parts::part::{Bracket, Left, Part, Sequence};
use form_steps::{first_of, one_more, paired, skip, skip_comma, then_mark};
use grammar::{Fault, Mark};
use leaf_forms::{left_end, pairs_end, sequence_end};
use std::alloc::Global;
use syntax_forms::{pattern_forms, process_forms};
use token_cursor::Cursor;

/// Takes this mark if it is next and what stands before it was read, and says whether it did.
pub fn skip_after<T>(cursor: &mut Cursor<'_>, before: &Result<T, Fault>, mark: Mark) -> bool
    ensures after { result ≡ true → IsOk before.now }
    ensures is { result ≡ true → sees mark (view cursor.old.rest.now) ≡ true }
    ensures takes { result ≡ true → Takes mark (view cursor.old.rest.now) (view cursor.new.rest.now) }
    ensures less { result ≡ true → length cursor.new.rest.now < length cursor.old.rest.now }
    ensures stays { result ≡ false → view cursor.new.rest.now ≡ view cursor.old.rest.now }
    ensures ends { result ≡ false → OnOk before.now (sees mark (view cursor.old.rest.now) ≡ false) }
    ensures shorter { length cursor.new.rest.now ≤ length cursor.old.rest.now }
{
    if before.is_err() {
        return false;
    }
    skip(cursor, mark)
}

/// Takes a comma if it is next, no remainder follows it and what stands before it was read, and says whether it
/// did.
pub fn skip_comma_after<T>(cursor: &mut Cursor<'_>, before: &Result<T, Fault>) -> bool
    ensures after { result ≡ true → IsOk before.now }
    ensures is { result ≡ true → sees_member (view cursor.old.rest.now) ≡ true }
    ensures takes { result ≡ true → Takes marks.Comma (view cursor.old.rest.now) (view cursor.new.rest.now) }
    ensures less { result ≡ true → length cursor.new.rest.now < length cursor.old.rest.now }
    ensures stays { result ≡ false → view cursor.new.rest.now ≡ view cursor.old.rest.now }
    ensures ends { result ≡ false → OnOk before.now (sees_member (view cursor.old.rest.now) ≡ false) }
    ensures shorter { length cursor.new.rest.now ≤ length cursor.old.rest.now }
{
    if before.is_err() {
        return false;
    }
    skip_comma(cursor)
}

/// A list of the first pair, whose key and value were read; or the first fault.
pub fn first_pair<T: Drop>(
    alloc: Global,
    key: Result<Part<T>, Fault>,
    value: Result<Part<T>, Fault>,
) -> Result<Part<Vec<(T, T)>>, Fault>
    ensures reads { (k : Part T) → key ≡ Ok k → HandsOnPart value (λ x. (k.value, x) ∷ []) (max k.height) result (λ ps. ps.items) }
    ensures room { (n : ℕ) → IfOk key (λ k. k.height ≤ n) → IfOk value (λ v. v.height ≤ n) → IfOk result (λ ps. ps.height ≤ n) }
{
    match key {
        Ok(key) => first_of(alloc, paired(key, value)),
        Err(fault) => Err(fault),
    }
}

/// One more part that was read, after those that were read before; or the first fault.
pub fn then_one_more<T: Drop>(
    before: Result<Part<Vec<T>>, Fault>,
    next: Result<Part<T>, Fault>,
) -> Result<Part<Vec<T>>, Fault>
    ensures reads { Appends before next result }
    ensures room { (n : ℕ) → IfOk before (λ ps. ps.height ≤ n) → IfOk next (λ p. p.height ≤ n) → IfOk result (λ ps. ps.height ≤ n) }
{
    match before {
        Ok(parts) => one_more(parts, next),
        Err(fault) => Err(fault),
    }
}

/// The parts that were read, in parallel.
pub fn composed(parts: Result<Part<Vec<Proc>>, Fault>) -> Result<Part<Proc>, Fault>
    ensures reads { Completes parts (λ ps. done (spelt (par_of processes (map proc_written ps.value.items)) ps.height)) of_proc result }
    ensures room { (n : ℕ) → IfOk parts (λ ps. ps.height ≤ n) → IfOk result (λ p. p.height ≤ n) }
{
    match parts {
        Ok(parts) => Ok(process_forms::composed(parts)),
        Err(fault) => Err(fault),
    }
}

/// The patterns that were read, in parallel.
pub fn composed_pattern(parts: Result<Part<Vec<Pat>>, Fault>) -> Result<Part<Pat>, Fault>
    ensures reads { Completes parts (λ ps. done (spelt (par_of patterns (map pat_written ps.value.items)) ps.height)) of_pat result }
    ensures room { (n : ℕ) → IfOk parts (λ ps. ps.height ≤ n) → IfOk result (λ p. p.height ≤ n) }
{
    match parts {
        Ok(parts) => Ok(pattern_forms::composed_pat(parts)),
        Err(fault) => Err(fault),
    }
}

/// The patterns of names that were read, and the remainder that may follow them.
pub fn close_left(
    cursor: &mut Cursor<'_>,
    pats: Result<Part<Vec<NamePat>>, Fault>,
) -> Result<Part<Left>, Fault>
    requires { OnOk pats (sees_member (view cursor.old.rest.now) ≡ false) }
    ensures reads { CompletesAt cursor.old pats (λ ps. last (Sort.LeftTail (map name_pat_written ps.value.items) ps.height))
        of_left result cursor.new }
    ensures room { (n : ℕ) → IfOk pats (λ ps. ps.height ≤ n) → IfOk result (λ l. l.height ≤ n) }
    ensures shorter { length cursor.new.rest.now ≤ length cursor.old.rest.now }
{
    match pats {
        Ok(pats) => left_end(cursor, pats),
        Err(fault) => Err(fault),
    }
}

/// The patterns that were read, the remainder that may follow them, and the sign that closes them.
pub fn close_sequence(
    cursor: &mut Cursor<'_>,
    bracket: Bracket,
    pats: Result<Part<Vec<Pat>>, Fault>,
) -> Result<Part<Sequence>, Fault>
    requires { OnOk pats (sees_member (view cursor.old.rest.now) ≡ false) }
    ensures reads { CompletesAt cursor.old pats (λ ps. last (Sort.SeqTail (bracket_of bracket) (map pat_written ps.value.items)
        ps.height)) of_sequence result cursor.new }
    ensures room { (n : ℕ) → IfOk pats (λ ps. ps.height ≤ n) → IfOk result (λ s. s.height ≤ n) }
    ensures shorter { length cursor.new.rest.now ≤ length cursor.old.rest.now }
{
    match pats {
        Ok(pats) => sequence_end(cursor, bracket, pats),
        Err(fault) => Err(fault),
    }
}

/// The map of the pairs that were read, and a brace.
pub fn close_map(
    cursor: &mut Cursor<'_>,
    pairs: Result<Part<Vec<(Proc, Proc)>>, Fault>,
) -> Result<Part<Proc>, Fault>
    requires { IfOk pairs (λ ps. ps.height + 1 < 2 ^ 32) }
    ensures reads { CompletesAt cursor.old pairs (λ ps. rule Tutorial (Prod.pairs_end (pairs_written ps.value.items) ps.height))
        of_proc result cursor.new }
    ensures room { (n : ℕ) → IfOk pairs (λ ps. ps.height < n) → IfOk result (λ p. p.height ≤ n) }
    ensures shorter { length cursor.new.rest.now ≤ length cursor.old.rest.now }
{
    match then_mark(cursor, pairs, Mark::CloseBrace) {
        Ok(pairs) => Ok(process_forms::map(pairs)),
        Err(fault) => Err(fault),
    }
}

/// The pattern of a map of the pairs that were read, the remainder that may follow them, and a brace.
pub fn close_pairs(
    cursor: &mut Cursor<'_>,
    pairs: Result<Part<Vec<(Pat, Pat)>>, Fault>,
) -> Result<Part<Pat>, Fault>
    requires member { OnOk pairs (sees_member (view cursor.old.rest.now) ≡ false) }
    requires room { IfOk pairs (λ ps. ps.height + 1 < 2 ^ 32) }
    ensures reads { CompletesAt cursor.old pairs (λ ps. last (Sort.PPairs (pat_pairs_written ps.value.items) ps.height))
        of_pat result cursor.new }
    ensures room { (n : ℕ) → IfOk pairs (λ ps. ps.height < n) → IfOk result (λ p. p.height ≤ n) }
    ensures shorter { length cursor.new.rest.now ≤ length cursor.old.rest.now }
{
    match pairs {
        Ok(pairs) => pairs_end(cursor, pairs),
        Err(fault) => Err(fault),
    }
}
