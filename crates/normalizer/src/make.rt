// Terms of processes in a scope, from the inside out.

ghost use Rattle.std.specs.Prelude.{◌≡◌, ◌++◌, map};
ghost use Rattle.calculus.specs.Meaning.{proc_written, name_written, pat_written, name_pat_written, bind_written, case_written};
ghost use Rattle.rho_term.specs.Parts.{part_tree, pat_part_tree, pair_tree, bind_tree, case_tree};
ghost use Rattle.open_processes.specs.Pairs.{proc_pair, pat_pair};
ghost use Rattle.normal_parts.specs.Made.{normal_in, all_in, parts_in, pattern_parts_in, all_parts, all_pattern_parts};
ghost use Rattle.normalizer.specs.Making.{Made};

use crate::maker::Maker;
use calculus::{Bind, Case, Name, NamePat, Pat, Proc};
use normal_parts::rest_of;
use rho_term::{Part, PatPart, Term, TermBind, TermCase, TermPat, with_room};

/// The term of a process.
#[cycle(make)]
pub(crate) fn make_term(maker: &mut Maker, p: &Proc) -> Term
    ensures { Made maker.old maker.new (result ≡ normal_in (proc_written p.now) maker.old.scope) }
{
    let mut parts = Vec::new(maker.alloc);
    add_parts(maker, p, &mut parts);
    maker.process(parts)
}

// The parts of a process, in written order, at the end of these.
#[cycle(make)]
fn add_parts(maker: &mut Maker, p: &Proc, parts: &mut Vec<Part>)
    ensures { Made maker.old maker.new (map part_tree parts.new.items
        ≡ map part_tree parts.old.items ++ parts_in (proc_written p.now) maker.old.scope) }
{
    match p {
        Proc::Par(ps) => add_all_parts(maker, ps, parts),
        Proc::Ground(value) => {
            let value = maker.ground(value);
            maker.add(parts, Part::Ground(value));
        }
        Proc::Var(name) => {
            let index = maker.index(name);
            maker.add(parts, Part::Var(index));
        }
        Proc::Drop(n) => add_name_parts(maker, n, parts),
        Proc::List(members) => {
            let members = make_terms(maker, members);
            maker.add(parts, Part::List(members));
        }
        Proc::Tuple(members) => {
            let members = make_terms(maker, members);
            maker.add(parts, Part::Tuple(members));
        }
        Proc::Set(members) => {
            let members = make_terms(maker, members);
            maker.add(parts, Part::Set(members));
        }
        Proc::Map(pairs) => {
            let pairs = make_pairs(maker, pairs);
            maker.add(parts, Part::Map(pairs));
        }
        Proc::Send {
            channel,
            args,
            persistent,
        } => {
            let channel = make_name(maker, channel);
            let args = make_terms(maker, args);
            let persistent = *persistent;
            let send = Part::Send {
                channel,
                args,
                persistent,
            };
            maker.add(parts, send);
        }
        Proc::Receive { kind, binds, body } => {
            let kind = *kind;
            let outside = maker.depth();
            let made = make_binds(maker, binds);
            maker.bind_binds(binds);
            let body = make_term(maker, body);
            maker.leave(outside);
            let binds = made;
            maker.add(parts, Part::Receive { kind, binds, body });
        }
        Proc::New { names, body } => {
            let outside = maker.depth();
            maker.bind_declared(names);
            let body = make_term(maker, body);
            maker.leave(outside);
            let names = maker.origins(names);
            maker.add(parts, Part::New { names, body });
        }
        Proc::Match { target, cases } => {
            let target = make_term(maker, target);
            let cases = make_cases(maker, cases);
            maker.add(parts, Part::Match { target, cases });
        }
        Proc::Bundle { rights, body } => {
            let rights = *rights;
            let body = make_term(maker, body);
            maker.add(parts, Part::Bundle { rights, body });
        }
        Proc::Unary { op, arg } => {
            let op = *op;
            let arg = make_term(maker, arg);
            maker.add(parts, Part::Unary { op, arg });
        }
        Proc::Binary { op, left, right } => {
            let op = *op;
            let left = make_term(maker, left);
            let right = make_term(maker, right);
            maker.add(parts, Part::Binary { op, left, right });
        }
        Proc::Method { name, target, args } => {
            let target = make_term(maker, target);
            let args = make_terms(maker, args);
            let name = maker.text(name);
            maker.add(parts, Part::Method { name, target, args });
        }
    }
}

// The parts of these processes, one after another.
#[cycle(make)]
fn add_all_parts(maker: &mut Maker, ps: &Vec<Proc>, parts: &mut Vec<Part>)
    ensures { Made maker.old maker.new (map part_tree parts.new.items
        ≡ map part_tree parts.old.items ++ all_parts (map proc_written ps.now.items) maker.old.scope) }
{
    for p in ps {
        add_parts(maker, p, parts);
    }
}

#[cycle(make)]
fn make_terms(maker: &mut Maker, ps: &Vec<Proc>) -> Vec<Term>
    ensures { Made maker.old maker.new (result.items ≡ all_in (map proc_written ps.now.items) maker.old.scope) }
{
    let mut terms = with_room(maker.alloc, ps.len());
    for p in ps {
        let term = make_term(maker, p);
        maker.add(&mut terms, term);
    }
    terms
}

#[cycle(make)]
fn make_pairs(maker: &mut Maker, pairs: &Vec<(Proc, Proc)>) -> Vec<(Term, Term)>
    ensures { Made maker.old maker.new (map pair_tree result.items ≡ all_in (map proc_pair pairs.now.items) maker.old.scope) }
{
    let mut terms = with_room(maker.alloc, pairs.len());
    for pair in pairs {
        let key = make_term(maker, &pair.0);
        let value = make_term(maker, &pair.1);
        maker.add(&mut terms, (key, value));
    }
    terms
}

// The term of the process that a name quotes.
#[cycle(make)]
fn make_name(maker: &mut Maker, n: &Name) -> Term
    ensures { Made maker.old maker.new (result ≡ normal_in (name_written n.now) maker.old.scope) }
{
    let mut parts = Vec::new(maker.alloc);
    add_name_parts(maker, n, &mut parts);
    maker.process(parts)
}

// The parts of the process that a name quotes, at the end of these.
#[cycle(make)]
fn add_name_parts(maker: &mut Maker, n: &Name, parts: &mut Vec<Part>)
    ensures { Made maker.old maker.new (map part_tree parts.new.items
        ≡ map part_tree parts.old.items ++ parts_in (name_written n.now) maker.old.scope) }
{
    match n {
        Name::Var(name) => {
            let index = maker.index(name);
            maker.add(parts, Part::NameVar(index));
        }
        Name::Fresh(name) => maker.add(parts, Part::Fresh(*name)),
        Name::Quote(p) => add_parts(maker, p, parts),
    }
}

// The binds of a receive. Their names are not yet bound in them.
#[cycle(make)]
fn make_binds(maker: &mut Maker, binds: &Vec<Bind>) -> Vec<TermBind>
    ensures { Made maker.old maker.new (map bind_tree result.items ≡ all_in (map bind_written binds.now.items) maker.old.scope) }
{
    let mut made = with_room(maker.alloc, binds.len());
    for bind in binds {
        let channel = make_name(maker, &bind.channel);
        let pats = make_name_pats(maker, &bind.pats);
        let rest = rest_of(&bind.rest);
        let term = TermBind {
            pats,
            rest,
            channel,
        };
        maker.add(&mut made, term);
    }
    made
}

// The cases of a match. The names of a pattern are bound in its body.
#[cycle(make)]
fn make_cases(maker: &mut Maker, cases: &Vec<Case>) -> Vec<TermCase>
    ensures { Made maker.old maker.new (map case_tree result.items ≡ all_in (map case_written cases.now.items) maker.old.scope) }
{
    let mut made = with_room(maker.alloc, cases.len());
    for case in cases {
        let outside = maker.depth();
        let pat = make_pat(maker, &case.pat);
        maker.bind_pattern(&case.pat);
        let body = make_term(maker, &case.body);
        maker.leave(outside);
        maker.add(&mut made, TermCase { pat, body });
    }
    made
}

#[cycle(make)]
fn make_pat(maker: &mut Maker, p: &Pat) -> TermPat
    ensures { Made maker.old maker.new (result ≡ normal_in (pat_written p.now) maker.old.scope) }
{
    let mut parts = Vec::new(maker.alloc);
    add_pat_parts(maker, p, &mut parts);
    maker.pattern(parts)
}

// The parts of a pattern, in written order, at the end of these.
#[cycle(make)]
fn add_pat_parts(maker: &mut Maker, p: &Pat, parts: &mut Vec<PatPart>)
    ensures { Made maker.old maker.new (map pat_part_tree parts.new.items
        ≡ map pat_part_tree parts.old.items ++ pattern_parts_in (pat_written p.now) maker.old.scope) }
{
    match p {
        Pat::Par(ps) => add_all_pat_parts(maker, ps, parts),
        Pat::Wild => maker.add(parts, PatPart::Wild),
        Pat::Var(_) => maker.add(parts, PatPart::Var),
        Pat::Simple(kind) => maker.add(parts, PatPart::Simple(*kind)),
        Pat::Same(inner) => {
            let process = make_term(maker, inner);
            maker.add(parts, PatPart::Same(process));
        }
        Pat::Ground(value) => {
            let value = maker.ground(value);
            maker.add(parts, PatPart::Ground(value));
        }
        Pat::Both(left, right) => {
            let left = make_pat(maker, left);
            let right = make_pat(maker, right);
            maker.add(parts, PatPart::Both(left, right));
        }
        Pat::Either(left, right) => {
            let left = make_pat(maker, left);
            let right = make_pat(maker, right);
            maker.add(parts, PatPart::Either(left, right));
        }
        Pat::Not(inner) => {
            let pat = make_pat(maker, inner);
            maker.add(parts, PatPart::Not(pat));
        }
        Pat::List(members, rest) => {
            let members = make_pats(maker, members);
            maker.add(parts, PatPart::List(members, rest_of(rest)));
        }
        Pat::Tuple(members) => {
            let members = make_pats(maker, members);
            maker.add(parts, PatPart::Tuple(members));
        }
        Pat::Set(members, rest) => {
            let members = make_pats(maker, members);
            maker.add(parts, PatPart::Set(members, rest_of(rest)));
        }
        Pat::Map(pairs, rest) => {
            let pairs = make_pat_pairs(maker, pairs);
            maker.add(parts, PatPart::Map(pairs, rest_of(rest)));
        }
        Pat::Send {
            channel,
            args,
            persistent,
        } => {
            let channel = make_name_pat(maker, channel);
            let args = make_pats(maker, args);
            let persistent = *persistent;
            let send = PatPart::Send {
                channel,
                args,
                persistent,
            };
            maker.add(parts, send);
        }
        Pat::Bundle { rights, body } => {
            let rights = *rights;
            let body = make_pat(maker, body);
            maker.add(parts, PatPart::Bundle { rights, body });
        }
        Pat::Closed(inner) => {
            let mut forms = Vec::new(maker.alloc);
            add_parts(maker, inner, &mut forms);
            maker.add_closed(parts, forms);
        }
    }
}

// The parts of these patterns, one after another.
#[cycle(make)]
fn add_all_pat_parts(maker: &mut Maker, ps: &Vec<Pat>, parts: &mut Vec<PatPart>)
    ensures { Made maker.old maker.new (map pat_part_tree parts.new.items
        ≡ map pat_part_tree parts.old.items ++ all_pattern_parts (map pat_written ps.now.items) maker.old.scope) }
{
    for p in ps {
        add_pat_parts(maker, p, parts);
    }
}

#[cycle(make)]
fn make_pats(maker: &mut Maker, ps: &Vec<Pat>) -> Vec<TermPat>
    ensures { Made maker.old maker.new (result.items ≡ all_in (map pat_written ps.now.items) maker.old.scope) }
{
    let mut pats = with_room(maker.alloc, ps.len());
    for p in ps {
        let pat = make_pat(maker, p);
        maker.add(&mut pats, pat);
    }
    pats
}

#[cycle(make)]
fn make_pat_pairs(maker: &mut Maker, pairs: &Vec<(Pat, Pat)>) -> Vec<(TermPat, TermPat)>
    ensures { Made maker.old maker.new (map pair_tree result.items ≡ all_in (map pat_pair pairs.now.items) maker.old.scope) }
{
    let mut pats = with_room(maker.alloc, pairs.len());
    for pair in pairs {
        let key = make_pat(maker, &pair.0);
        let value = make_pat(maker, &pair.1);
        maker.add(&mut pats, (key, value));
    }
    pats
}

#[cycle(make)]
fn make_name_pats(maker: &mut Maker, ps: &Vec<NamePat>) -> Vec<TermPat>
    ensures { Made maker.old maker.new (result.items ≡ all_in (map name_pat_written ps.now.items) maker.old.scope) }
{
    let mut pats = with_room(maker.alloc, ps.len());
    for p in ps {
        let pat = make_name_pat(maker, p);
        maker.add(&mut pats, pat);
    }
    pats
}

#[cycle(make)]
fn make_name_pat(maker: &mut Maker, p: &NamePat) -> TermPat
    ensures { Made maker.old maker.new (result ≡ normal_in (name_pat_written p.now) maker.old.scope) }
{
    let mut parts = Vec::new(maker.alloc);
    add_name_pat_parts(maker, p, &mut parts);
    maker.pattern(parts)
}

// The parts of a name pattern, at the end of these.
#[cycle(make)]
fn add_name_pat_parts(maker: &mut Maker, p: &NamePat, parts: &mut Vec<PatPart>)
    ensures { Made maker.old maker.new (map pat_part_tree parts.new.items
        ≡ map pat_part_tree parts.old.items ++ pattern_parts_in (name_pat_written p.now) maker.old.scope) }
{
    match p {
        NamePat::Wild => maker.add(parts, PatPart::Wild),
        NamePat::Var(_) => maker.add(parts, PatPart::NameVar),
        NamePat::Quote(inner) => add_pat_parts(maker, inner, parts),
    }
}
