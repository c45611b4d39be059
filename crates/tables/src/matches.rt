//! The first match of a term that is a send beside a receive, or a `match`.
ghost use Rattle.std.specs.Prelude.{map};
ghost use Rattle.calculus.specs.Form.{IsClosed, a_bind, a_case, term};
ghost use Rattle.calculus.specs.Shape.{only};
ghost use Rattle.rho_term.specs.Parts.{bind_tree, case_tree, part_tree};
ghost use Rattle.match_targets.specs.Targets.{AllReady, Ready};

use rho_term::{Part, Term, TermBind, TermCase};
use spatial_match::{first_match, match_bind};
use std::alloc::{AllocError, Global};
use term_encoder::code_len;

/// The most bytes of a code that is matched.
const MOST_BYTES: u64 = 4_294_967_295;

// What the first of these binds binds of these arguments.
fn match_first_bind(
    alloc: Global,
    binds: &[TermBind],
    args: &[Term],
) -> Result<Option<Vec<Term>>, AllocError>
    requires binds { AllReady a_bind (map bind_tree binds.now) }
    requires args { AllReady term args.now }
{
    if binds.is_empty() {
        return Ok(None);
    }
    match_bind(alloc, &binds[0], args)
}

// What a receive's first bind binds of these arguments.
fn match_receive(
    alloc: Global,
    receive: &Part,
    args: &[Term],
) -> Result<Option<Vec<Term>>, AllocError>
    requires receive { Ready term (only (part_tree receive.now)) }
    requires args { AllReady term args.now }
{
    match receive {
        Part::Receive { binds, .. } => match_first_bind(alloc, binds, args),
        _ => Ok(None),
    }
}

// What a receive's first bind binds of the arguments of a send.
fn match_send(alloc: Global, send: &Part, receive: &Part) -> Result<Option<Vec<Term>>, AllocError>
    requires send { Ready term (only (part_tree send.now)) }
    requires receive { Ready term (only (part_tree receive.now)) }
{
    match send {
        Part::Send { args, .. } => match_receive(alloc, receive, args),
        _ => Ok(None),
    }
}

// What a case binds of a target.
fn match_case(
    alloc: Global,
    case: &TermCase,
    target: &Term,
) -> Result<Option<Vec<Term>>, AllocError>
    requires case { Ready a_case (case_tree case.now) }
    requires target { Ready term target.now }
{
    first_match(alloc, &case.pat, target)
}

// What the first of these cases binds of a target.
fn match_first_case(
    alloc: Global,
    cases: &[TermCase],
    target: &Term,
) -> Result<Option<Vec<Term>>, AllocError>
    requires cases { AllReady a_case (map case_tree cases.now) }
    requires target { Ready term target.now }
{
    if cases.is_empty() {
        return Ok(None);
    }
    match_case(alloc, &cases[0], target)
}

// What the first case of a `match` binds of its target.
fn match_target(alloc: Global, part: &Part) -> Result<Option<Vec<Term>>, AllocError>
    requires { Ready term (only (part_tree part.now)) }
{
    match part {
        Part::Match { target, cases } => match_first_case(alloc, cases, target),
        _ => Ok(None),
    }
}

// What a process of two parts, a send and a receive, binds first.
fn match_two(alloc: Global, process: &Term) -> Result<Option<Vec<Term>>, AllocError>
    requires { Ready term process.now }
{
    let parts = process.parts();
    if parts.len() == 2 {
        return match_send(alloc, &parts[0], &parts[1]);
    }
    Ok(None)
}

// What a process of one part, a `match`, binds first.
fn match_one(alloc: Global, process: &Term) -> Result<Option<Vec<Term>>, AllocError>
    requires { Ready term process.now }
{
    let parts = process.parts();
    if parts.len() == 1 {
        return match_target(alloc, &parts[0]);
    }
    match_two(alloc, process)
}

/// What a send beside a receive, or a `match`, binds first. A process whose code is too long is not looked at.
pub fn matched(alloc: Global, process: &Term) -> Result<Option<Vec<Term>>, AllocError>
    requires { IsClosed process.now }
{
    if code_len(process) > MOST_BYTES {
        return Ok(None);
    }
    match_one(alloc, process)
}
