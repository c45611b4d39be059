// Whether a closed form uses a name that it does not bind.

ghost use Rattle.std.specs.Prelude.{◌≡◌, ◌≤◌, ◌-◌, ◌++◌, ◌∷◌, ◌||◌, [], false, length, drop, map, string_bytes, IfOk};
ghost use Rattle.calculus.specs.Written.{writtens};
ghost use Rattle.calculus.specs.Meaning.{proc_written, name_written, pat_written, name_pat_written, bind_written, case_written, rest_written, declared as declared_pair};
ghost use Rattle.scope.specs.Binding.{variables, all_variables, inside, declared_variables, is_absent, sense_of, uses_more as more_is_used, any_uses_more as any_more_is_used};
ghost use Rattle.scope_names.specs.Senses.{sense};
ghost use Rattle.open_processes.specs.Pairs.{proc_pair, pat_pair};

use calculus::{Bind, Case, Decl, Name, NamePat, Pat, Proc, Rest};
use scope_names::{Role, Variables};
use std::alloc::{AllocError, Global};

/// Whether a process uses a name that has no variable in this scope or in the process. Where it does
/// not, the scope is as before.
pub fn uses_more(alloc: Global, scope: &mut Variables, p: &Proc) -> Result<bool, AllocError>
    ensures answer { IfOk result (λ x. x ≡ more_is_used (proc_written p.now) scope.old) }
    ensures scope { IfOk result (λ x. x ≡ false → scope.new ≡ scope.old) }
{
    let mut walk = Walk::new(alloc);
    walk_process(&mut walk, scope, p);
    walk.answer()
}

/// A walk over a process: whether a name without a variable was used so far. Once memory was wanting,
/// it tells nothing any more.
#[derive(Drop)]
struct Walk {
    alloc: Global,
    used: bool,
    failed: bool,
}

impl Walk {
    // One that begins.
    fn new(alloc: Global) -> Walk
        ensures used { result.used ≡ false }
        ensures failed { result.failed ≡ false }
    {
        Walk {
            alloc,
            used: false,
            failed: false,
        }
    }

    // Whether such a name was used.
    fn answer(&self) -> Result<bool, AllocError>
        ensures { IfOk result (λ x. (self.now.failed ≡ false) × (x ≡ self.now.used)) }
    {
        if self.failed {
            return Err(AllocError);
        }
        Ok(self.used)
    }

    // A name that is used in this scope.
    fn look_up(&mut self, scope: &Variables, name: &String)
        ensures { self.new.failed ≡ false → (self.old.failed ≡ false)
            × (self.new.used ≡ self.old.used || is_absent (sense_of (string_bytes name.now) scope.now)) }
    {
        if !self.used {
            self.used = scope.find(name.as_str()).is_none();
        }
    }

    // One more variable of a pattern or a `new`.
    fn bind(&mut self, bound: &mut Variables, name: &String, role: Role)
        ensures { self.new.failed ≡ false → (self.old.failed ≡ false) × (self.new.used ≡ self.old.used)
            × (bound.new ≡ (string_bytes name.now, sense role) ∷ bound.old) }
    {
        match bound.bind(name, role) {
            Ok(()) => {}
            Err(_) => self.failed = true,
        }
    }

    // The variable of a remainder, if it has one.
    fn bind_rest(&mut self, bound: &mut Variables, rest: &Rest)
        ensures { self.new.failed ≡ false → (self.old.failed ≡ false) × (self.new.used ≡ self.old.used)
            × (bound.new ≡ inside (variables (rest_written rest.now)) bound.old) }
    {
        match rest {
            Rest::No | Rest::Wild => {}
            Rest::Var(name) => self.bind(bound, name, Role::Process),
        }
    }

    // The names that a `new` declares.
    fn declared(&mut self, names: &Vec<Decl>) -> Variables
        ensures { self.new.failed ≡ false → (self.old.failed ≡ false) × (self.new.used ≡ self.old.used)
            × (result ≡ inside (declared_variables (map declared_pair names.now.items)) []) }
    {
        let mut bound = Variables::new(self.alloc);
        for decl in names {
            self.bind(&mut bound, &decl.name, Role::Name);
        }
        bound
    }

    // These variables are in scope too.
    fn enter(&mut self, scope: &mut Variables, bound: Variables)
        ensures { self.new.failed ≡ false → (self.old.failed ≡ false) × (self.new.used ≡ self.old.used)
            × (scope.new ≡ bound ++ scope.old) }
    {
        match scope.enter(bound) {
            Ok(()) => {}
            Err(_) => self.failed = true,
        }
    }

    // Only the variables outside are in scope again.
    fn leave(&self, scope: &mut Variables, outside: usize)
        requires { self.now.failed ≡ false → outside ≤ length scope.old }
        ensures { self.now.failed ≡ false → scope.new ≡ drop (length scope.old - outside) scope.old }
    {
        if !self.failed {
            scope.leave(outside);
        }
    }
}

#[cycle(walk)]
fn walk_process(walk: &mut Walk, scope: &mut Variables, p: &Proc)
    ensures { walk.new.failed ≡ false → (walk.old.failed ≡ false) × (scope.new ≡ scope.old)
        × (walk.new.used ≡ walk.old.used || more_is_used (proc_written p.now) scope.old) }
{
    match p {
        Proc::Par(ps) | Proc::List(ps) | Proc::Tuple(ps) | Proc::Set(ps) => {
            walk_processes(walk, scope, ps)
        }
        Proc::Map(pairs) => walk_pairs(walk, scope, pairs),
        Proc::Ground(_) => {}
        Proc::Var(name) => walk.look_up(scope, name),
        Proc::Drop(name) => walk_name(walk, scope, name),
        Proc::Send { channel, args, .. } => {
            walk_name(walk, scope, channel);
            walk_processes(walk, scope, args);
        }
        Proc::Receive { binds, body, .. } => {
            let bound = walk_binds(walk, scope, binds);
            walk_within(walk, scope, bound, body);
        }
        Proc::New { names, body } => {
            let bound = walk.declared(names);
            walk_within(walk, scope, bound, body);
        }
        Proc::Match { target, cases } => {
            walk_process(walk, scope, target);
            walk_cases(walk, scope, cases);
        }
        Proc::Bundle { body: inner, .. } | Proc::Unary { arg: inner, .. } => {
            walk_process(walk, scope, inner)
        }
        Proc::Binary { left, right, .. } => {
            walk_process(walk, scope, left);
            walk_process(walk, scope, right);
        }
        Proc::Method { target, args, .. } => {
            walk_process(walk, scope, target);
            walk_processes(walk, scope, args);
        }
    }
}

#[cycle(walk)]
fn walk_processes(walk: &mut Walk, scope: &mut Variables, ps: &Vec<Proc>)
    ensures { walk.new.failed ≡ false → (walk.old.failed ≡ false) × (scope.new ≡ scope.old)
        × (walk.new.used ≡ walk.old.used || any_more_is_used (writtens (map proc_written ps.now.items)) scope.old) }
{
    for p in ps {
        walk_process(walk, scope, p);
    }
}

#[cycle(walk)]
fn walk_pairs(walk: &mut Walk, scope: &mut Variables, pairs: &Vec<(Proc, Proc)>)
    ensures { walk.new.failed ≡ false → (walk.old.failed ≡ false) × (scope.new ≡ scope.old)
        × (walk.new.used ≡ walk.old.used || any_more_is_used (writtens (map proc_pair pairs.now.items)) scope.old) }
{
    for pair in pairs {
        walk_process(walk, scope, &pair.0);
        walk_process(walk, scope, &pair.1);
    }
}

#[cycle(walk)]
fn walk_name(walk: &mut Walk, scope: &mut Variables, n: &Name)
    ensures { walk.new.failed ≡ false → (walk.old.failed ≡ false) × (scope.new ≡ scope.old)
        × (walk.new.used ≡ walk.old.used || more_is_used (name_written n.now) scope.old) }
{
    match n {
        Name::Var(name) => walk.look_up(scope, name),
        Name::Fresh(_) => {}
        Name::Quote(p) => walk_process(walk, scope, p),
    }
}

// The same in the scope of these variables too.
#[cycle(walk)]
fn walk_within(walk: &mut Walk, scope: &mut Variables, bound: Variables, p: &Proc)
    ensures { walk.new.failed ≡ false → (walk.old.failed ≡ false) × (scope.new ≡ scope.old)
        × (walk.new.used ≡ walk.old.used || more_is_used (proc_written p.now) (bound ++ scope.old)) }
{
    let outside = scope.len();
    walk.enter(scope, bound);
    walk_process(walk, scope, p);
    walk.leave(scope, outside);
}

// Gives the variables of the binds.
#[cycle(walk)]
fn walk_binds(walk: &mut Walk, scope: &mut Variables, binds: &Vec<Bind>) -> Variables
    ensures { walk.new.failed ≡ false → (walk.old.failed ≡ false) × (scope.new ≡ scope.old)
        × (walk.new.used ≡ walk.old.used || any_more_is_used (writtens (map bind_written binds.now.items)) scope.old)
        × (result ≡ inside (all_variables (writtens (map bind_written binds.now.items))) []) }
{
    let mut bound = Variables::new(walk.alloc);
    for bind in binds {
        walk_name(walk, scope, &bind.channel);
        walk_name_patterns(walk, scope, &mut bound, &bind.pats);
        walk.bind_rest(&mut bound, &bind.rest);
    }
    bound
}

#[cycle(walk)]
fn walk_cases(walk: &mut Walk, scope: &mut Variables, cases: &Vec<Case>)
    ensures { walk.new.failed ≡ false → (walk.old.failed ≡ false) × (scope.new ≡ scope.old)
        × (walk.new.used ≡ walk.old.used || any_more_is_used (writtens (map case_written cases.now.items)) scope.old) }
{
    for case in cases {
        let mut bound = Variables::new(walk.alloc);
        walk_pattern(walk, scope, &mut bound, &case.pat);
        walk_within(walk, scope, bound, &case.body);
    }
}

// The variables of a pattern join `bound`.
#[cycle(walk)]
fn walk_pattern(walk: &mut Walk, scope: &mut Variables, bound: &mut Variables, p: &Pat)
    ensures { walk.new.failed ≡ false → (walk.old.failed ≡ false) × (scope.new ≡ scope.old)
        × (walk.new.used ≡ walk.old.used || more_is_used (pat_written p.now) scope.old)
        × (bound.new ≡ inside (variables (pat_written p.now)) bound.old) }
{
    match p {
        Pat::Par(ps) | Pat::Tuple(ps) => walk_patterns(walk, scope, bound, ps),
        Pat::Wild | Pat::Simple(_) | Pat::Ground(_) => {}
        Pat::Var(name) => walk.bind(bound, name, Role::Process),
        Pat::Same(inner) | Pat::Closed(inner) => walk_process(walk, scope, inner),
        Pat::Both(left, right) | Pat::Either(left, right) => {
            walk_pattern(walk, scope, bound, left);
            walk_pattern(walk, scope, bound, right);
        }
        Pat::Not(inner) | Pat::Bundle { body: inner, .. } => {
            walk_pattern(walk, scope, bound, inner)
        }
        Pat::List(ps, rest) | Pat::Set(ps, rest) => {
            walk_patterns(walk, scope, bound, ps);
            walk.bind_rest(bound, rest);
        }
        Pat::Map(pairs, rest) => {
            walk_pattern_pairs(walk, scope, bound, pairs);
            walk.bind_rest(bound, rest);
        }
        Pat::Send { channel, args, .. } => {
            walk_name_pattern(walk, scope, bound, channel);
            walk_patterns(walk, scope, bound, args);
        }
    }
}

#[cycle(walk)]
fn walk_patterns(walk: &mut Walk, scope: &mut Variables, bound: &mut Variables, ps: &Vec<Pat>)
    ensures { walk.new.failed ≡ false → (walk.old.failed ≡ false) × (scope.new ≡ scope.old)
        × (walk.new.used ≡ walk.old.used || any_more_is_used (writtens (map pat_written ps.now.items)) scope.old)
        × (bound.new ≡ inside (all_variables (writtens (map pat_written ps.now.items))) bound.old) }
{
    for p in ps {
        walk_pattern(walk, scope, bound, p);
    }
}

#[cycle(walk)]
fn walk_pattern_pairs(
    walk: &mut Walk,
    scope: &mut Variables,
    bound: &mut Variables,
    pairs: &Vec<(Pat, Pat)>,
)
    ensures { walk.new.failed ≡ false → (walk.old.failed ≡ false) × (scope.new ≡ scope.old)
        × (walk.new.used ≡ walk.old.used || any_more_is_used (writtens (map pat_pair pairs.now.items)) scope.old)
        × (bound.new ≡ inside (all_variables (writtens (map pat_pair pairs.now.items))) bound.old) }
{
    for pair in pairs {
        walk_pattern(walk, scope, bound, &pair.0);
        walk_pattern(walk, scope, bound, &pair.1);
    }
}

#[cycle(walk)]
fn walk_name_patterns(
    walk: &mut Walk,
    scope: &mut Variables,
    bound: &mut Variables,
    ps: &Vec<NamePat>,
)
    ensures { walk.new.failed ≡ false → (walk.old.failed ≡ false) × (scope.new ≡ scope.old)
        × (walk.new.used ≡ walk.old.used || any_more_is_used (writtens (map name_pat_written ps.now.items)) scope.old)
        × (bound.new ≡ inside (all_variables (writtens (map name_pat_written ps.now.items))) bound.old) }
{
    for p in ps {
        walk_name_pattern(walk, scope, bound, p);
    }
}

#[cycle(walk)]
fn walk_name_pattern(walk: &mut Walk, scope: &mut Variables, bound: &mut Variables, p: &NamePat)
    ensures { walk.new.failed ≡ false → (walk.old.failed ≡ false) × (scope.new ≡ scope.old)
        × (walk.new.used ≡ walk.old.used || more_is_used (name_pat_written p.now) scope.old)
        × (bound.new ≡ inside (variables (name_pat_written p.now)) bound.old) }
{
    match p {
        NamePat::Wild => {}
        NamePat::Var(name) => walk.bind(bound, name, Role::Name),
        NamePat::Quote(inner) => walk_pattern(walk, scope, bound, inner),
    }
}
