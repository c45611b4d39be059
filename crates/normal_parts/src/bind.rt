#![tactic(auto, using(crate::proofs::Binding::binding))]
// The names that patterns and declarations bind.

ghost use Rattle.std.specs.Prelude.{◌≡◌, map, OnOk};
ghost use Rattle.calculus.specs.Written.{writtens};
ghost use Rattle.calculus.specs.Bare.{names as names_bound, all_names};
ghost use Rattle.calculus.specs.Meaning.{pat_written, name_pat_written, bind_written, rest_written, declared};
ghost use Rattle.open_processes.specs.Pairs.{pat_pair};
ghost use Rattle.normal_parts.specs.InScope.{within};

use calculus::{Bind, Decl, NamePat, Pat, Rest};
use scope_names::Names;
use std::alloc::AllocError;

/// The names of the binds of a receive.
pub fn bind_binds(bound: &mut Names, binds: &Vec<Bind>) -> Result<(), AllocError>
    ensures { OnOk result (bound.new ≡ within (all_names (writtens (map bind_written binds.now.items))) bound.old) }
{
    for b in binds {
        bind_one(bound, b)?;
    }
    Ok(())
}

// The names of a bind, whose channel binds none.
fn bind_one(bound: &mut Names, b: &Bind) -> Result<(), AllocError>
    ensures { OnOk result (bound.new ≡ within (names_bound (bind_written b.now)) bound.old) }
{
    bind_name_patterns(bound, &b.pats)?;
    bind_rest(bound, &b.rest)
}

/// The names of a `new`.
pub fn bind_declared(bound: &mut Names, names: &Vec<Decl>) -> Result<(), AllocError>
    ensures { OnOk result (bound.new ≡ within (map (λ d. d.0) (map declared names.now.items)) bound.old) }
{
    for decl in names {
        bound.bind(&decl.name)?;
    }
    Ok(())
}

/// The names of a pattern.
#[cycle(binding)]
pub fn bind_pattern(bound: &mut Names, p: &Pat) -> Result<(), AllocError>
    ensures { OnOk result (bound.new ≡ within (names_bound (pat_written p.now)) bound.old) }
{
    match p {
        Pat::Par(ps) => bind_patterns(bound, ps),
        Pat::Wild => Ok(()),
        Pat::Var(name) => bound.bind(name),
        Pat::Simple(_) => Ok(()),
        Pat::Same(_) => Ok(()),
        Pat::Ground(_) => Ok(()),
        Pat::Both(a, b) => {
            bind_pattern(bound, a)?;
            bind_pattern(bound, b)
        }
        Pat::Either(a, b) => {
            bind_pattern(bound, a)?;
            bind_pattern(bound, b)
        }
        Pat::Not(a) => bind_pattern(bound, a),
        Pat::List(ps, rest) => {
            bind_patterns(bound, ps)?;
            bind_rest(bound, rest)
        }
        Pat::Tuple(ps) => bind_patterns(bound, ps),
        Pat::Set(ps, rest) => {
            bind_patterns(bound, ps)?;
            bind_rest(bound, rest)
        }
        Pat::Map(ps, rest) => {
            bind_pattern_pairs(bound, ps)?;
            bind_rest(bound, rest)
        }
        Pat::Send { channel, args, .. } => {
            bind_name_pattern(bound, channel)?;
            bind_patterns(bound, args)
        }
        Pat::Bundle { body, .. } => bind_pattern(bound, body),
        Pat::Closed(_) => Ok(()),
    }
}

#[cycle(binding)]
fn bind_patterns(bound: &mut Names, ps: &Vec<Pat>) -> Result<(), AllocError>
    ensures { OnOk result (bound.new ≡ within (all_names (writtens (map pat_written ps.now.items))) bound.old) }
{
    for p in ps {
        bind_pattern(bound, p)?;
    }
    Ok(())
}

#[cycle(binding)]
fn bind_pattern_pairs(bound: &mut Names, ps: &Vec<(Pat, Pat)>) -> Result<(), AllocError>
    ensures { OnOk result (bound.new ≡ within (all_names (writtens (map pat_pair ps.now.items))) bound.old) }
{
    for p in ps {
        bind_pattern(bound, &p.0)?;
        bind_pattern(bound, &p.1)?;
    }
    Ok(())
}

#[cycle(binding)]
fn bind_name_pattern(bound: &mut Names, p: &NamePat) -> Result<(), AllocError>
    ensures { OnOk result (bound.new ≡ within (names_bound (name_pat_written p.now)) bound.old) }
{
    match p {
        NamePat::Wild => Ok(()),
        NamePat::Var(name) => bound.bind(name),
        NamePat::Quote(inner) => bind_pattern(bound, inner),
    }
}

fn bind_name_patterns(bound: &mut Names, ps: &Vec<NamePat>) -> Result<(), AllocError>
    ensures { OnOk result (bound.new ≡ within (all_names (writtens (map name_pat_written ps.now.items))) bound.old) }
{
    for p in ps {
        bind_name_pattern(bound, p)?;
    }
    Ok(())
}

// The name of a remainder, if it has one.
fn bind_rest(bound: &mut Names, rest: &Rest) -> Result<(), AllocError>
    ensures { OnOk result (bound.new ≡ within (names_bound (rest_written rest.now)) bound.old) }
{
    match rest {
        Rest::No => Ok(()),
        Rest::Wild => Ok(()),
        Rest::Var(name) => bound.bind(name),
    }
}
