//! The forms that a key begins: declarations, `if`, contracts, receives and `match`.
ghost use Rattle.form_steps.specs.Parts.{after_key, form_sort};
ghost use Rattle.form_steps.specs.declared.step.FormKey.TheVariants as keys;
ghost use Rattle.process_descent.specs.Parsing.{Parses, ParsesRule};
ghost use Rattle.token_cursor.specs.Reading.{of_proc};
ghost use Rattle.std.specs.Prelude.{◌<◌};

use crate::{atom, left, operation, pattern, process};
use calculus::Proc;
use form_ends::{
    FormStep, begin_form, close_receive, contract_head, contract_with_body, if_with_else,
    if_without_else, new_with_body, skip_after, skip_separator_after, then_marks, then_one_more,
};
use form_parts::part::Part;
use form_parts::parts;
use form_steps::step::FormKey;
use form_steps::{
    arrow_mark, both, bound, cased, first_of, next_separator, one_more, skip, then_mark,
};
use grammar::{Fault, Mark};
use syntax_forms::process_forms;
use token_cursor::{Cursor, Level};

/// A form that begins with this key. New ::= "new" Decl { "," Decl } "in" One
#[cycle(parse)]
pub(crate) fn form(cursor: &mut Cursor<'_>, key: FormKey, free: u32) -> Result<Part<Proc>, Fault>
    ensures { Parses free (form_sort key) of_proc cursor.old result cursor.new }
{
    match begin_form(cursor, key, free) {
        Ok(FormStep::New(names)) => {
            let body = process::one(cursor, free - 1);
            new_with_body(cursor.alloc, names, body)
        }
        Ok(FormStep::If) => branches(cursor, free),
        Ok(FormStep::Contract) => contract(cursor, free),
        Ok(FormStep::For) => receive(cursor, free),
        Ok(FormStep::Match) => matching(cursor, free),
        Err(fault) => Err(fault),
    }
}

/// What follows `if` and a parenthesis: Par ")" Two [ "else" One ]
#[cycle(parse)]
pub(crate) fn branches(cursor: &mut Cursor<'_>, free: u32) -> Result<Part<Proc>, Fault>
    requires { 0 < free }
    ensures { ParsesRule free (after_key keys.If) of_proc cursor.old result cursor.new }
{
    let below = free - 1;
    let condition = process::par(cursor, below);
    let test = match then_mark(cursor, condition, Mark::Close) {
        Ok(test) => test,
        Err(fault) => return Err(fault),
    };
    let arms = both(test, process::two(cursor, below));
    if !skip_after(cursor, &arms, Mark::Else) {
        return if_without_else(cursor.alloc, arms);
    }
    let other = process::one(cursor, below);
    if_with_else(cursor.alloc, arms, other)
}

/// What follows `contract`: Name "(" Left ")" "=" One
#[cycle(parse)]
pub(crate) fn contract(cursor: &mut Cursor<'_>, free: u32) -> Result<Part<Proc>, Fault>
    requires { 0 < free }
    ensures { ParsesRule free (after_key keys.Contract) of_proc cursor.old result cursor.new }
{
    let below = free - 1;
    let channel = atom::name(cursor, below);
    let name = match then_mark(cursor, channel, Mark::Open) {
        Ok(name) => name,
        Err(fault) => return Err(fault),
    };
    let left = left::left(cursor, below);
    let head = match contract_head(cursor, name, left) {
        Ok(head) => head,
        Err(fault) => return Err(fault),
    };
    let body = process::one(cursor, below);
    contract_with_body(cursor.alloc, head, body)
}

/// What follows `for` and a parenthesis: Binds ")" "{" Par "}"
#[cycle(parse)]
pub(crate) fn receive(cursor: &mut Cursor<'_>, free: u32) -> Result<Part<Proc>, Fault>
    requires { 0 < free }
    ensures { ParsesRule free (after_key keys.For) of_proc cursor.old result cursor.new }
{
    let below = free - 1;
    let pats = left::left(cursor, below);
    let kind = cursor.arrow();
    let arrow = arrow_mark(kind);
    let left = match then_mark(cursor, pats, arrow) {
        Ok(left) => left,
        Err(fault) => return Err(fault),
    };
    let first = bound(left, atom::name(cursor, below));
    let separator = next_separator(cursor);
    let mut binds = first_of(cursor.alloc, first);
    let mut more = 15;
    'binds: while skip_separator_after(cursor, &binds, separator, more) {
        let found = left::left(cursor, below);
        let next_left = match then_mark(cursor, found, arrow) {
            Ok(next_left) => next_left,
            Err(fault) => return parts::give_up(binds, fault),
        };
        let channel = atom::name(cursor, below);
        let next = bound(next_left, channel);
        binds = then_one_more(binds, next);
        more -= 1;
    }
    let head = match then_marks(cursor, binds, Mark::Close, Mark::OpenBrace) {
        Ok(head) => head,
        Err(fault) => return Err(fault),
    };
    let body = process::par(cursor, below);
    close_receive(cursor, kind, head, body)
}

/// What follows `match`: Or "{" Case { Case } "}", where
/// Case ::= POne "=>" One, where POne doesn't begin with "-"
#[cycle(parse)]
pub(crate) fn matching(cursor: &mut Cursor<'_>, free: u32) -> Result<Part<Proc>, Fault>
    requires { 0 < free }
    ensures { ParsesRule free (after_key keys.Match) of_proc cursor.old result cursor.new }
{
    let below = free - 1;
    let value = operation::level(cursor, Some(Level::Or), below);
    let target = match then_mark(cursor, value, Mark::OpenBrace) {
        Ok(target) => target,
        Err(fault) => return Err(fault),
    };
    let mut cases = process_forms::no_cases(cursor.alloc, target.height);
    'cases: loop {
        match cursor.refuse_minus() {
            Ok(()) => {}
            Err(fault) => return Err(fault),
        }
        let found = pattern::pattern_one(cursor, below);
        let pattern = match then_mark(cursor, found, Mark::FatArrow) {
            Ok(pattern) => pattern,
            Err(fault) => return Err(fault),
        };
        let case = cased(pattern, process::one(cursor, below));
        cases = match one_more(cases, case) {
            Ok(cases) => cases,
            Err(fault) => return Err(fault),
        };
        if skip(cursor, Mark::CloseBrace) {
            return process_forms::matches(cursor.alloc, target.value, cases);
        }
    }
}
