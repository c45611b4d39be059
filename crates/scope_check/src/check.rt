#![tactic(auto, using(crate::proofs::Walking::walking))]
// The rules of scope, tested in reading order.

ghost use Rattle.std.specs.Prelude.{◌≡◌, ◌++◌, [], false, map, OnOk};
ghost use Rattle.calculus.specs.Written.{writtens, closed as closed_form, form_of_one};
ghost use Rattle.calculus.specs.Meaning.{proc_written, name_written, pat_written, name_pat_written, bind_written, case_written};
ghost use Rattle.scope.specs.Binding.{variables, all_variables, inside};
ghost use Rattle.scope.specs.Rules.{outside, after, breaks, all_breaks};
ghost use Rattle.open_processes.specs.Pairs.{proc_pair, pat_pair};
ghost use Rattle.input_faults.specs.Walks.{Judges};

use crate::is_wide;
use calculus::{Bind, Case, Name, NamePat, Pat, Proc};
use input_faults::{
    ScopeFault, check_rest, declarations, members_fit, name_variable, new_variable,
    process_variable,
};
use open_processes::uses_more;
use scope_names::{Role, Variables};
use std::alloc::Global;

/// The first rule that a process in this scope breaks. Where it breaks none, the scope is as before.
#[cycle(check)]
pub(crate) fn check_process(
    alloc: Global,
    scope: &mut Variables,
    p: &Proc,
) -> Result<(), ScopeFault>
    ensures rules { Judges result (breaks (proc_written p.now) scope.old outside) }
    ensures scope { OnOk result (scope.new ≡ scope.old) }
{
    match p {
        Proc::Par(ps) => check_processes(alloc, scope, ps),
        Proc::Ground(_) => Ok(()),
        Proc::Var(name) => process_variable(scope, name),
        Proc::Drop(n) => check_name(alloc, scope, n),
        Proc::List(ps) => check_processes(alloc, scope, ps),
        Proc::Tuple(ps) => check_processes(alloc, scope, ps),
        Proc::Set(ps) => check_processes(alloc, scope, ps),
        Proc::Map(ps) => check_pairs(alloc, scope, ps),
        Proc::Send { channel, args, .. } => {
            check_name(alloc, scope, channel)?;
            check_processes(alloc, scope, args)
        }
        Proc::Receive { binds, body, .. } => {
            let mut bound = Variables::new(alloc);
            check_binds(alloc, scope, &mut bound, binds)?;
            check_within(alloc, scope, bound, body)
        }
        Proc::New { names, body } => {
            let (bound, _origins) = declarations(alloc, names)?;
            check_within(alloc, scope, bound, body)
        }
        Proc::Match { target, cases } => {
            check_process(alloc, scope, target)?;
            check_cases(alloc, scope, cases)
        }
        Proc::Bundle { body, .. } => check_process(alloc, scope, body),
        Proc::Unary { arg, .. } => check_process(alloc, scope, arg),
        Proc::Binary { left, right, .. } => {
            check_process(alloc, scope, left)?;
            check_process(alloc, scope, right)
        }
        Proc::Method { target, args, .. } => {
            check_process(alloc, scope, target)?;
            check_processes(alloc, scope, args)
        }
    }
}

#[cycle(check)]
fn check_processes(alloc: Global, scope: &mut Variables, ps: &Vec<Proc>) -> Result<(), ScopeFault>
    ensures rules { Judges result (all_breaks (writtens (map proc_written ps.now.items)) scope.old outside) }
    ensures scope { OnOk result (scope.new ≡ scope.old) }
{
    for p in ps {
        check_process(alloc, scope, p)?;
    }
    Ok(())
}

#[cycle(check)]
fn check_pairs(
    alloc: Global,
    scope: &mut Variables,
    ps: &Vec<(Proc, Proc)>,
) -> Result<(), ScopeFault>
    ensures rules { Judges result (all_breaks (writtens (map proc_pair ps.now.items)) scope.old outside) }
    ensures scope { OnOk result (scope.new ≡ scope.old) }
{
    for p in ps {
        check_process(alloc, scope, &p.0)?;
        check_process(alloc, scope, &p.1)?;
    }
    Ok(())
}

#[cycle(check)]
fn check_name(alloc: Global, scope: &mut Variables, n: &Name) -> Result<(), ScopeFault>
    ensures binds { variables (name_written n.now) ≡ [] }
    ensures rules { Judges result (breaks (name_written n.now) scope.old outside) }
    ensures scope { OnOk result (scope.new ≡ scope.old) }
{
    match n {
        Name::Var(name) => name_variable(scope, name),
        Name::Fresh(_) => Ok(()),
        Name::Quote(p) => check_process(alloc, scope, p),
    }
}

// A process in the scope of these variables too.
#[cycle(check)]
fn check_within(
    alloc: Global,
    scope: &mut Variables,
    bound: Variables,
    p: &Proc,
) -> Result<(), ScopeFault>
    ensures rules { Judges result (breaks (proc_written p.now) (bound ++ scope.old) outside) }
    ensures scope { OnOk result (scope.new ≡ scope.old) }
{
    let outside = scope.len();
    scope.enter(bound)?;
    check_process(alloc, scope, p)?;
    scope.leave(outside);
    Ok(())
}

#[cycle(check)]
fn check_binds(
    alloc: Global,
    scope: &mut Variables,
    bound: &mut Variables,
    binds: &Vec<Bind>,
) -> Result<(), ScopeFault>
    ensures rules { Judges result (all_breaks (writtens (map bind_written binds.now.items)) scope.old (after bound.old false)) }
    ensures scope { OnOk result (scope.new ≡ scope.old) }
    ensures bound { OnOk result (bound.new ≡ inside (all_variables (writtens (map bind_written binds.now.items))) bound.old) }
{
    for b in binds {
        check_bind(alloc, scope, bound, b)?;
    }
    Ok(())
}

// A bind: its patterns, its remainder, and then its channel, which does not see what the bind binds.
#[cycle(check)]
fn check_bind(
    alloc: Global,
    scope: &mut Variables,
    bound: &mut Variables,
    b: &Bind,
) -> Result<(), ScopeFault>
    ensures rules { Judges result (breaks (bind_written b.now) scope.old (after bound.old false)) }
    ensures scope { OnOk result (scope.new ≡ scope.old) }
    ensures bound { OnOk result (bound.new ≡ inside (variables (bind_written b.now)) bound.old) }
{
    check_name_patterns(alloc, scope, bound, false, &b.pats)?;
    check_rest(bound, false, &b.rest)?;
    check_name(alloc, scope, &b.channel)
}

#[cycle(check)]
fn check_cases(alloc: Global, scope: &mut Variables, cases: &Vec<Case>) -> Result<(), ScopeFault>
    ensures rules { Judges result (all_breaks (writtens (map case_written cases.now.items)) scope.old outside) }
    ensures scope { OnOk result (scope.new ≡ scope.old) }
{
    for case in cases {
        check_case(alloc, scope, case)?;
    }
    Ok(())
}

#[cycle(check)]
fn check_case(alloc: Global, scope: &mut Variables, case: &Case) -> Result<(), ScopeFault>
    ensures rules { Judges result (breaks (case_written case.now) scope.old outside) }
    ensures scope { OnOk result (scope.new ≡ scope.old) }
{
    let mut bound = Variables::new(alloc);
    check_pattern(alloc, scope, &mut bound, false, &case.pat)?;
    check_within(alloc, scope, bound, &case.body)
}

// A pattern after these variables of the same receive or case, and under a negation or not.
#[cycle(check)]
fn check_pattern(
    alloc: Global,
    scope: &mut Variables,
    bound: &mut Variables,
    negated: bool,
    p: &Pat,
) -> Result<(), ScopeFault>
    ensures rules { Judges result (breaks (pat_written p.now) scope.old (after bound.old negated)) }
    ensures scope { OnOk result (scope.new ≡ scope.old) }
    ensures bound { OnOk result (bound.new ≡ inside (variables (pat_written p.now)) bound.old) }
{
    match p {
        Pat::Par(ps) => {
            if is_wide(ps) {
                return Err(ScopeFault::PatternWide);
            }
            check_patterns(alloc, scope, bound, negated, ps)
        }
        Pat::Wild => Ok(()),
        Pat::Var(name) => new_variable(bound, negated, name, Role::Process),
        Pat::Simple(_) => Ok(()),
        Pat::Same(inner) => check_process(alloc, scope, inner),
        Pat::Ground(_) => Ok(()),
        Pat::Both(a, b) => {
            check_pattern(alloc, scope, bound, negated, a)?;
            check_pattern(alloc, scope, bound, negated, b)
        }
        Pat::Either(a, b) => {
            check_pattern(alloc, scope, bound, true, a)?;
            check_pattern(alloc, scope, bound, true, b)
        }
        Pat::Not(a) => check_pattern(alloc, scope, bound, true, a),
        Pat::List(ps, rest) => {
            check_patterns(alloc, scope, bound, negated, ps)?;
            check_rest(bound, negated, rest)
        }
        Pat::Tuple(ps) => check_patterns(alloc, scope, bound, negated, ps),
        Pat::Set(ps, rest) => {
            members_fit(ps.len())?;
            check_patterns(alloc, scope, bound, negated, ps)?;
            check_rest(bound, negated, rest)
        }
        Pat::Map(ps, rest) => {
            members_fit(ps.len())?;
            check_pattern_pairs(alloc, scope, bound, negated, ps)?;
            check_rest(bound, negated, rest)
        }
        Pat::Send { channel, args, .. } => {
            check_name_pattern(alloc, scope, bound, negated, channel)?;
            check_patterns(alloc, scope, bound, negated, args)
        }
        Pat::Bundle { body, .. } => check_pattern(alloc, scope, bound, true, body),
        Pat::Closed(inner) => check_closed(alloc, scope, inner),
    }
}

#[cycle(check)]
fn check_patterns(
    alloc: Global,
    scope: &mut Variables,
    bound: &mut Variables,
    negated: bool,
    ps: &Vec<Pat>,
) -> Result<(), ScopeFault>
    ensures rules { Judges result (all_breaks (writtens (map pat_written ps.now.items)) scope.old (after bound.old negated)) }
    ensures scope { OnOk result (scope.new ≡ scope.old) }
    ensures bound { OnOk result (bound.new ≡ inside (all_variables (writtens (map pat_written ps.now.items))) bound.old) }
{
    for p in ps {
        check_pattern(alloc, scope, bound, negated, p)?;
    }
    Ok(())
}

#[cycle(check)]
fn check_name_patterns(
    alloc: Global,
    scope: &mut Variables,
    bound: &mut Variables,
    negated: bool,
    ps: &Vec<NamePat>,
) -> Result<(), ScopeFault>
    ensures rules { Judges result (all_breaks (writtens (map name_pat_written ps.now.items)) scope.old (after bound.old negated)) }
    ensures scope { OnOk result (scope.new ≡ scope.old) }
    ensures bound { OnOk result (bound.new ≡ inside (all_variables (writtens (map name_pat_written ps.now.items))) bound.old) }
{
    for p in ps {
        check_name_pattern(alloc, scope, bound, negated, p)?;
    }
    Ok(())
}

#[cycle(check)]
fn check_pattern_pairs(
    alloc: Global,
    scope: &mut Variables,
    bound: &mut Variables,
    negated: bool,
    ps: &Vec<(Pat, Pat)>,
) -> Result<(), ScopeFault>
    ensures rules { Judges result (all_breaks (writtens (map pat_pair ps.now.items)) scope.old (after bound.old negated)) }
    ensures scope { OnOk result (scope.new ≡ scope.old) }
    ensures bound { OnOk result (bound.new ≡ inside (all_variables (writtens (map pat_pair ps.now.items))) bound.old) }
{
    for p in ps {
        check_pattern(alloc, scope, bound, negated, &p.0)?;
        check_pattern(alloc, scope, bound, negated, &p.1)?;
    }
    Ok(())
}

#[cycle(check)]
fn check_name_pattern(
    alloc: Global,
    scope: &mut Variables,
    bound: &mut Variables,
    negated: bool,
    p: &NamePat,
) -> Result<(), ScopeFault>
    ensures rules { Judges result (breaks (name_pat_written p.now) scope.old (after bound.old negated)) }
    ensures scope { OnOk result (scope.new ≡ scope.old) }
    ensures bound { OnOk result (bound.new ≡ inside (variables (name_pat_written p.now)) bound.old) }
{
    match p {
        NamePat::Wild => Ok(()),
        NamePat::Var(name) => new_variable(bound, negated, name, Role::Name),
        NamePat::Quote(inner) => check_pattern(alloc, scope, bound, negated, inner),
    }
}

// A closed form, which uses no variable of the scope outside.
#[cycle(check)]
fn check_closed(alloc: Global, scope: &mut Variables, p: &Proc) -> Result<(), ScopeFault>
    ensures rules { Judges result (breaks (form_of_one closed_form (proc_written p.now)) scope.old outside) }
    ensures scope { OnOk result (scope.new ≡ scope.old) }
{
    let mut within = Variables::new(alloc);
    if uses_more(alloc, &mut within, p)? {
        return Err(ScopeFault::PatternBinder);
    }
    check_process(alloc, scope, p)
}
