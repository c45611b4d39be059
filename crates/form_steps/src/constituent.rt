//! Constituents that were read, or not, after what was read before them.
ghost use Rattle.grammar.specs.Values.{bind_of, case_of};
ghost use Rattle.calculus.specs.Meaning.{case_written, pat_written, proc_written};
ghost use Rattle.token_cursor.specs.Reading.{of_bind, of_left, of_name};
ghost use Rattle.form_steps.specs.Handing.{HandsOn, HandsOnPart};
ghost use Rattle.std.specs.Prelude.{◌≡◌, ◌≤◌, ◌∷◌, ◌++◌, [], ℕ, IfOk, MatchResult, max};

use calculus::{Bind, Case, Name, Pat, Proc};
use form_parts::part::{Left, Part};
use form_parts::parts;
use grammar::Fault;
use std::alloc::Global;
use syntax_forms::process_forms;

/// What was read before, with what was read after it; where that failed, the first is let go.
pub fn both<T: Drop, U>(first: T, second: Result<U, Fault>) -> Result<(T, U), Fault>
    ensures { MatchResult result (λ p. (p.0 ≡ first) × (second ≡ Ok p.1)) (λ e. second ≡ Err e) }
{
    match second {
        Ok(value) => Ok((first, value)),
        Err(fault) => parts::give_up(first, fault),
    }
}

/// A list of the first part that was read.
pub fn first_of<T: Drop>(
    alloc: Global,
    first: Result<Part<T>, Fault>,
) -> Result<Part<Vec<T>>, Fault>
    ensures reads { HandsOnPart first (λ x. x ∷ []) (λ h. h) result (λ xs. xs.items) }
    ensures room { (n : ℕ) → IfOk first (λ p. p.height ≤ n) → IfOk result (λ ps. ps.height ≤ n) }
{
    match first {
        Ok(part) => parts::start(alloc, part),
        Err(fault) => Err(fault),
    }
}

/// One more part that was read, after those that were read before.
pub fn one_more<T: Drop>(
    parts: Part<Vec<T>>,
    next: Result<Part<T>, Fault>,
) -> Result<Part<Vec<T>>, Fault>
    ensures reads { HandsOnPart next (λ x. parts.value.items ++ (x ∷ [])) (max parts.height) result (λ xs. xs.items) }
    ensures room { (n : ℕ) → parts.height ≤ n → IfOk next (λ p. p.height ≤ n) → IfOk result (λ ps. ps.height ≤ n) }
{
    match next {
        Ok(part) => parts::push(parts, part),
        Err(fault) => parts::give_up(parts, fault),
    }
}

/// A key with the value that was read after it.
pub fn paired<T: Drop>(key: Part<T>, value: Result<Part<T>, Fault>) -> Result<Part<(T, T)>, Fault>
    ensures reads { HandsOnPart value (λ x. (key.value, x)) (max key.height) result (λ p. p) }
    ensures room { (n : ℕ) → key.height ≤ n → IfOk value (λ v. v.height ≤ n) → IfOk result (λ p. p.height ≤ n) }
{
    match value {
        Ok(value) => Ok(parts::pair(key, value)),
        Err(fault) => parts::give_up(key, fault),
    }
}

/// The bind of these patterns on the channel that was read after them.
pub fn bound(left: Part<Left>, channel: Result<Part<Name>, Fault>) -> Result<Part<Bind>, Fault>
    ensures reads { HandsOn channel (λ n. bind_of (of_left left) (of_name n)) result of_bind }
    ensures room { (n : ℕ) → left.height ≤ n → IfOk channel (λ c. c.height ≤ n) → IfOk result (λ b. b.height ≤ n) }
{
    match channel {
        Ok(channel) => Ok(process_forms::bind(left, channel)),
        Err(fault) => parts::give_up(left, fault),
    }
}

/// The case of this pattern with the body that was read after it.
pub fn cased(pattern: Part<Pat>, body: Result<Part<Proc>, Fault>) -> Result<Part<Case>, Fault>
    ensures reads { HandsOnPart body (λ p. case_of (pat_written pattern.value) (proc_written p)) (max pattern.height) result case_written }
    ensures room { (n : ℕ) → pattern.height ≤ n → IfOk body (λ p. p.height ≤ n) → IfOk result (λ c. c.height ≤ n) }
{
    match body {
        Ok(body) => Ok(process_forms::case(pattern, body)),
        Err(fault) => parts::give_up(pattern, fault),
    }
}
