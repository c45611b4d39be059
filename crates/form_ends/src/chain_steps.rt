//! Chains that lean to the left: operators, method calls, and patterns that are joined.
ghost use Rattle.form_ends.specs.Chains.{Chains, EndsWithin, HasRoomOn, PassesOn, after_call, after_joint, after_left, joined, joint_tail};
ghost use Rattle.calculus.specs.Meaning.{pat_written};
ghost use Rattle.form_steps.specs.Handing.{HandsOn};
ghost use Rattle.grammar.specs.Rules.{Rule, Sort, last};
ghost use Rattle.grammar.specs.Terminals.{Terminal};
ghost use Rattle.grammar.specs.Values.{method_of, opened, operation};
ghost use Rattle.form_parts.specs.Forms.{HasTree};
ghost use Rattle.token_cursor.specs.Levels.{tail_of};
ghost use Rattle.token_cursor.specs.Meaning.{view};
ghost use Rattle.token_cursor.specs.Reading.{Turns, of_pat, of_proc, of_row};
ghost use Rattle.std.specs.Prelude.{◌≡◌, ◌+◌, ◌<◌, ◌≤◌, ◌^◌, ℕ, IfOk, List, length, max, string_bytes};

use crate::joint::Joint;
use calculus::{BinaryOp, Pat, Proc};
use form_parts::part::Part;
use form_parts::parts;
use form_steps::begin_call;
use grammar::Fault;
use std::alloc::Global;
use syntax_forms::{pattern_forms, process_forms};
use token_cursor::{Cursor, Level};

/// A chain up to a part of it.
pub enum Chain<P, T> {
    /// It ends: the whole chain, or the fault in its place.
    Ends(Result<Part<P>, Fault>),
    /// It goes on after this part, with what was taken behind it.
    GoesOn(Part<P>, T),
}

/// The operator of this level after its left operand, if it is next: it is taken and opens its form.
pub fn begin_right(
    cursor: &mut Cursor<'_>,
    level: Level,
    left: Result<Part<Proc>, Fault>,
    free: u32,
) -> Chain<Proc, BinaryOp>
    ensures reads { (r : Rule) (ts : List Terminal) →
        Turns free r (λ p. last (tail_of level (of_proc p))) ts left (view cursor.old.rest.now) →
        Chains free r of_proc (after_left level) ts result (view cursor.new.rest.now) }
    ensures room { HasRoomOn free result }
    ensures within { (n : ℕ) → IfOk left (λ p. p.height ≤ n) → EndsWithin n result }
    ensures shorter { PassesOn (length cursor.new.rest.now) (length cursor.old.rest.now) result }
{
    match left {
        Ok(part) => match cursor.operator(level) {
            Some((mark, op)) => match cursor.opens(mark, part.height, free) {
                Ok(()) => Chain::GoesOn(part, op),
                Err(fault) => Chain::Ends(parts::give_up(part, fault)),
            },
            None => Chain::Ends(Ok(part)),
        },
        Err(fault) => Chain::Ends(Err(fault)),
    }
}

/// The operator between its left operand and the right one, which was read after it.
pub fn operated(
    alloc: Global,
    op: BinaryOp,
    left: Part<Proc>,
    right: Result<Part<Proc>, Fault>,
) -> Result<Part<Proc>, Fault>
    requires left { left.height + 1 < 2 ^ 32 }
    requires right { IfOk right (λ p. p.height + 1 < 2 ^ 32) }
    ensures reads { HandsOn right (λ b. operation op (of_proc left) (of_proc b)) result of_proc }
    ensures room { (n : ℕ) → left.height < n → IfOk right (λ p. p.height < n) → IfOk result (λ p. p.height ≤ n) }
{
    match right {
        Ok(right) => process_forms::operation(alloc, op, left, right),
        Err(fault) => parts::give_up(left, fault),
    }
}

/// The name of a method after the target of the call, up to the arguments, if a call is next.
pub fn next_call(
    cursor: &mut Cursor<'_>,
    target: Result<Part<Proc>, Fault>,
    free: u32,
) -> Chain<Proc, String>
    ensures reads { (r : Rule) (ts : List Terminal) →
        Turns free r (λ p. last (Sort.MethTail (of_proc p))) ts target (view cursor.old.rest.now) →
        Chains free r of_proc after_call ts result (view cursor.new.rest.now) }
    ensures room { HasRoomOn free result }
    ensures within { (n : ℕ) → IfOk target (λ p. p.height ≤ n) → EndsWithin n result }
    ensures shorter { PassesOn (length cursor.new.rest.now) (length cursor.old.rest.now) result }
{
    match target {
        Ok(part) => match begin_call(cursor, part.height, free) {
            Ok(Some(name)) => Chain::GoesOn(part, name),
            Ok(None) => Chain::Ends(Ok(part)),
            Err(fault) => Chain::Ends(parts::give_up(part, fault)),
        },
        Err(fault) => Chain::Ends(Err(fault)),
    }
}

/// The call of this method with the arguments that were read after it.
pub fn called(
    alloc: Global,
    name: String,
    target: Part<Proc>,
    args: Result<Part<Vec<Proc>>, Fault>,
) -> Result<Part<Proc>, Fault>
    requires target { target.height + 1 < 2 ^ 32 }
    requires args { IfOk args (λ p. p.height + 1 < 2 ^ 32) }
    ensures reads { HandsOn args (λ r. opened (method_of (string_bytes name) (of_proc target).tree (of_row r).tree)
        (max target.height r.height)) result of_proc }
    ensures room { (n : ℕ) → target.height < n → IfOk args (λ p. p.height < n) → IfOk result (λ p. p.height ≤ n) }
{
    match args {
        Ok(args) => process_forms::method(alloc, name, target, args),
        Err(fault) => parts::give_up(target, fault),
    }
}

/// What joins a pattern to the one on its left, if it is next: it is taken and opens its form.
pub fn next_joint(
    cursor: &mut Cursor<'_>,
    joint: Joint,
    left: Result<Part<Pat>, Fault>,
    free: u32,
) -> Chain<Pat, Joint>
    ensures reads { (r : Rule) (ts : List Terminal) →
        Turns free r (λ p. last (joint_tail joint (of_pat p))) ts left (view cursor.old.rest.now) →
        Chains free r of_pat (after_joint joint) ts result (view cursor.new.rest.now) }
    ensures room { HasRoomOn free result }
    ensures within { (n : ℕ) → IfOk left (λ p. p.height ≤ n) → EndsWithin n result }
    ensures shorter { PassesOn (length cursor.new.rest.now) (length cursor.old.rest.now) result }
{
    let mark = joint.mark();
    match left {
        Ok(part) => {
            if !cursor.sees(mark) {
                return Chain::Ends(Ok(part));
            }
            match cursor.opens(mark, part.height, free) {
                Ok(()) => Chain::GoesOn(part, joint),
                Err(fault) => Chain::Ends(parts::give_up(part, fault)),
            }
        }
        Err(fault) => Chain::Ends(Err(fault)),
    }
}

/// What this makes of the pattern on its left and of the one that was read after it.
pub fn join(
    alloc: Global,
    joint: Joint,
    left: Part<Pat>,
    right: Result<Part<Pat>, Fault>,
) -> Result<Part<Pat>, Fault>
    requires left { left.height + 1 < 2 ^ 32 }
    requires right { IfOk right (λ p. p.height + 1 < 2 ^ 32) }
    ensures reads { HandsOn right (λ b. joined joint (of_pat left) (of_pat b)) result of_pat }
    ensures room { (n : ℕ) → left.height < n → IfOk right (λ p. p.height < n) → IfOk result (λ p. p.height ≤ n) }
{
    match right {
        Ok(right) => join_two(alloc, joint, left, right),
        Err(fault) => parts::give_up(left, fault),
    }
}

/// Two patterns that are joined.
fn join_two(
    alloc: Global,
    joint: Joint,
    left: Part<Pat>,
    right: Part<Pat>,
) -> Result<Part<Pat>, Fault>
    requires left { left.height + 1 < 2 ^ 32 }
    requires right { right.height + 1 < 2 ^ 32 }
    ensures tree { HasTree pat_written result (joined joint (of_pat left) (of_pat right)).tree }
    ensures height { IfOk result (λ p. p.height ≡ max left.height right.height + 1) }
{
    match joint {
        Joint::Either => pattern_forms::either(alloc, left, right),
        Joint::Both => pattern_forms::both(alloc, left, right),
    }
}
