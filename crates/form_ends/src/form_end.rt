//! Forms whose last constituent was read, or not.
ghost use Rattle.calculus.specs.Meaning.{bind_written, declared, name_written, proc_written};
ghost use Rattle.form_ends.specs.Reading.{received};
ghost use Rattle.form_steps.specs.Handing.{Completes, CompletesAt, ContinuesFrom};
ghost use Rattle.grammar.specs.Choice.{choose};
ghost use Rattle.grammar.specs.Grammar.{rule};
ghost use Rattle.grammar.specs.Rules.{Rule, Sort, at, done, sign};
ghost use Rattle.grammar.specs.Terminals.{Terminal};
ghost use Rattle.grammar.specs.Values.{Spelt, closed_of, contract_of, if_of, new_of, nil, opened, quote_of, quoted_of, spelt, unary_of};
ghost use Rattle.grammar.specs.declared.dialect.Dialect.TheVariants.{Tutorial};
ghost use Rattle.grammar.specs.declared.mark.Mark.TheVariants as marks;
ghost use Rattle.form_parts.specs.Forms.{left_written};
ghost use Rattle.token_cursor.specs.Reading.{Gives, Makes, of_left, of_name, of_name_pat, of_pat, of_proc};
ghost use Rattle.std.specs.Prelude.{◌≡◌, ◌+◌, ◌<◌, ◌≤◌, ◌^◌, ℕ, IfOk, List, length, map, max};

use calculus::{Bind, Decl, Kind, Name, NamePat, Pat, Proc, UnaryOp};
use form_parts::part::{Left, Part};
use form_parts::parts;
use form_steps::{both, then_mark};
use grammar::{Fault, Mark};
use std::alloc::Global;
use syntax_forms::{pattern_forms, process_forms};
use token_cursor::Cursor;

/// The receive of these binds and of the body that was read after them, and a brace.
pub fn close_receive(
    cursor: &mut Cursor<'_>,
    kind: Kind,
    binds: Part<Vec<Bind>>,
    body: Result<Part<Proc>, Fault>,
) -> Result<Part<Proc>, Fault>
    requires binds { binds.height + 1 < 2 ^ 32 }
    requires body { IfOk body (λ p. p.height + 1 < 2 ^ 32) }
    ensures reads { CompletesAt cursor.old body (λ p. received kind (map bind_written binds.value.items) binds.height (of_proc p))
        of_proc result cursor.new }
    ensures room { (n : ℕ) → binds.height < n → IfOk body (λ p. p.height < n) → IfOk result (λ p. p.height ≤ n) }
    ensures shorter { length cursor.new.rest.now ≤ length cursor.old.rest.now }
{
    match then_mark(cursor, body, Mark::CloseBrace) {
        Ok(body) => process_forms::receive(cursor.alloc, kind, binds, body),
        Err(fault) => parts::give_up(binds, fault),
    }
}

/// The name of a contract with what it receives, which was read after it, and what stands before its body.
pub fn contract_head(
    cursor: &mut Cursor<'_>,
    name: Part<Name>,
    left: Result<Part<Left>, Fault>,
) -> Result<(Part<Name>, Part<Left>), Fault>
    ensures reads { (after : Spelt → Spelt → Rule) → ContinuesFrom cursor.old left
        (λ l. sign marks.Close (sign marks.Assign (after (of_name name) (of_left l)))) result
        (λ h. after (of_name h.0) (of_left h.1)) cursor.new }
    ensures room { (n : ℕ) → name.height < n → IfOk left (λ l. l.height < n) → IfOk result (λ h. (h.0.height < n) × (h.1.height < n)) }
    ensures shorter { length cursor.new.rest.now ≤ length cursor.old.rest.now }
{
    let closed = then_mark(cursor, both(name, left), Mark::Close);
    then_mark(cursor, closed, Mark::Assign)
}

/// The contract of this name and these patterns and of the body that was read after them.
pub fn contract_with_body(
    alloc: Global,
    head: (Part<Name>, Part<Left>),
    body: Result<Part<Proc>, Fault>,
) -> Result<Part<Proc>, Fault>
    requires name { head.0.height + 1 < 2 ^ 32 }
    requires left { head.1.height + 1 < 2 ^ 32 }
    requires body { IfOk body (λ p. p.height + 1 < 2 ^ 32) }
    ensures reads { Completes body (λ p. done (opened (contract_of (name_written head.0.value) (left_written head.1.value) (of_proc p).tree)
        (max (max head.0.height head.1.height) p.height))) of_proc result }
    ensures room { (n : ℕ) → head.0.height < n → head.1.height < n → IfOk body (λ p. p.height < n) → IfOk result (λ p. p.height ≤ n) }
{
    match body {
        Ok(body) => process_forms::contract(alloc, head.0, head.1, body),
        Err(fault) => parts::give_up(head, fault),
    }
}

/// The `if` of the condition and the branch that were read.
pub fn if_without_else(
    alloc: Global,
    arms: Result<(Part<Proc>, Part<Proc>), Fault>,
) -> Result<Part<Proc>, Fault>
    requires { IfOk arms (λ a. (a.0.height + 1 < 2 ^ 32) × (a.1.height + 1 < 2 ^ 32)) }
    ensures reads { Completes arms (λ a. done (opened (if_of (proc_written a.0.value) (proc_written a.1.value) nil)
        (max a.0.height a.1.height))) of_proc result }
    ensures room { (n : ℕ) → IfOk arms (λ a. (a.0.height < n) × (a.1.height < n)) → IfOk result (λ p. p.height ≤ n) }
{
    match arms {
        Ok(arms) => process_forms::if_only(alloc, arms.0, arms.1),
        Err(fault) => Err(fault),
    }
}

/// The `if` of the condition and the branch that were read, and of the other branch that was read after them.
pub fn if_with_else(
    alloc: Global,
    arms: Result<(Part<Proc>, Part<Proc>), Fault>,
    other: Result<Part<Proc>, Fault>,
) -> Result<Part<Proc>, Fault>
    requires arms { IfOk arms (λ a. (a.0.height + 1 < 2 ^ 32) × (a.1.height + 1 < 2 ^ 32)) }
    requires no { IfOk other (λ p. p.height + 1 < 2 ^ 32) }
    ensures reads { (a : Part Proc × Part Proc) → arms ≡ Ok a → Completes other (λ p. done (opened
        (if_of (proc_written a.0.value) (proc_written a.1.value) (of_proc p).tree) (max (max a.0.height a.1.height) p.height))) of_proc result }
    ensures room { (n : ℕ) → IfOk arms (λ a. (a.0.height < n) × (a.1.height < n)) → IfOk other (λ p. p.height < n) →
        IfOk result (λ p. p.height ≤ n) }
{
    match arms {
        Ok(arms) => if_from(alloc, arms, other),
        Err(fault) => Err(fault),
    }
}

/// The `if` of this condition and this branch, and of the other branch that was read after them.
fn if_from(
    alloc: Global,
    arms: (Part<Proc>, Part<Proc>),
    other: Result<Part<Proc>, Fault>,
) -> Result<Part<Proc>, Fault>
    requires condition { arms.0.height + 1 < 2 ^ 32 }
    requires yes { arms.1.height + 1 < 2 ^ 32 }
    requires no { IfOk other (λ p. p.height + 1 < 2 ^ 32) }
    ensures reads { Completes other (λ p. done (opened (if_of (proc_written arms.0.value) (proc_written arms.1.value) (of_proc p).tree)
        (max (max arms.0.height arms.1.height) p.height))) of_proc result }
    ensures room { (n : ℕ) → arms.0.height < n → arms.1.height < n → IfOk other (λ p. p.height < n) → IfOk result (λ p. p.height ≤ n) }
{
    match other {
        Ok(other) => process_forms::choice(alloc, arms.0, arms.1, other),
        Err(fault) => parts::give_up(arms, fault),
    }
}

/// The form of processes that was read, as a pattern without variables.
pub fn closed_form(alloc: Global, form: Result<Part<Proc>, Fault>) -> Result<Part<Pat>, Fault>
    ensures reads { (free : ℕ) (s : Sort) (ts us : List Terminal) → Gives free s of_proc ts form us →
        Makes free (at s (λ p. done (closed_of p))) of_pat ts result us }
    ensures room { (n : ℕ) → IfOk form (λ p. p.height ≤ n) → IfOk result (λ p. p.height ≤ n) }
{
    match form {
        Ok(part) => pattern_forms::closed(alloc, part),
        Err(fault) => Err(fault),
    }
}

/// The name that quotes the process that was read.
pub fn quoted_name(alloc: Global, quoted: Result<Part<Proc>, Fault>) -> Result<Part<Name>, Fault>
    ensures reads { Completes quoted (λ p. done (spelt (quote_of (of_proc p).tree) p.height)) of_name result }
    ensures room { (n : ℕ) → IfOk quoted (λ p. p.height ≤ n) → IfOk result (λ q. q.height ≤ n) }
{
    match quoted {
        Ok(quoted) => process_forms::quote(alloc, quoted),
        Err(fault) => Err(fault),
    }
}

/// The pattern of a name that quotes the pattern that was read.
pub fn quoted_pattern(
    alloc: Global,
    quoted: Result<Part<Pat>, Fault>,
) -> Result<Part<NamePat>, Fault>
    ensures reads { Completes quoted (λ p. done (spelt (quoted_of (of_pat p).tree) p.height)) of_name_pat result }
    ensures room { (n : ℕ) → IfOk quoted (λ p. p.height ≤ n) → IfOk result (λ q. q.height ≤ n) }
{
    match quoted {
        Ok(quoted) => pattern_forms::quote_pat(alloc, quoted),
        Err(fault) => Err(fault),
    }
}

/// The declaration of these names in the process that was read after them.
pub fn new_with_body(
    alloc: Global,
    names: Vec<Decl>,
    body: Result<Part<Proc>, Fault>,
) -> Result<Part<Proc>, Fault>
    requires { IfOk body (λ p. p.height + 1 < 2 ^ 32) }
    ensures reads { Completes body (λ p. done (opened (new_of (map declared names.items) (of_proc p).tree) p.height)) of_proc result }
    ensures room { (n : ℕ) → IfOk body (λ p. p.height < n) → IfOk result (λ p. p.height ≤ n) }
{
    match body {
        Ok(body) => process_forms::new_process(alloc, names, body),
        Err(fault) => Err(fault),
    }
}

/// The operator before the operand that was read.
pub fn unary_with_operand(
    alloc: Global,
    op: UnaryOp,
    operand: Result<Part<Proc>, Fault>,
) -> Result<Part<Proc>, Fault>
    requires { IfOk operand (λ p. p.height + 1 < 2 ^ 32) }
    ensures reads { Completes operand (λ p. done (opened (unary_of op (of_proc p).tree) p.height)) of_proc result }
    ensures room { (n : ℕ) → IfOk operand (λ p. p.height < n) → IfOk result (λ p. p.height ≤ n) }
{
    match operand {
        Ok(operand) => process_forms::unary(alloc, op, operand),
        Err(fault) => Err(fault),
    }
}
