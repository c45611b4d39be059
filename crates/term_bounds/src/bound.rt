// How many variables stand bound in trees for what is around them: form by form, as far as a u64 counts.

ghost use Rattle.std.specs.Prelude.{◌≡◌, ◌+◌, map};
ghost use Rattle.calculus.specs.Tree.{trees, rest as rest_form};
ghost use Rattle.rho_term.specs.Parts.{part_tree, pat_part_tree, pair_tree, bind_tree, case_tree};
ghost use Rattle.rho_term.specs.Sizes.{in_u64};
ghost use Rattle.term_bounds.specs.Bound.{own_count, bound_count, bound_counts};

use rho_term::{Part, PatPart, Term, TermBind, TermPat, TermRest};

/// How many variables a process binds for what is around it.
#[cycle(bound)]
pub fn term_bound(term: &Term) -> u64
    ensures { result ≡ in_u64 (bound_count term.now) }
{
    let parts = term.parts();
    let mut total = 0;
    for part in parts {
        total = plus(total, part_bound(part));
    }
    total
}

#[cycle(bound)]
fn part_bound(part: &Part) -> u64
    ensures { result ≡ in_u64 (bound_count (part_tree part.now)) }
{
    match part {
        Part::Ground(_) => 0,
        Part::Fresh(_) => 0,
        Part::Var(_) => 0,
        Part::NameVar(_) => 0,
        Part::List(members) => terms_bound(members),
        Part::Tuple(members) => terms_bound(members),
        Part::Set(members) => terms_bound(members),
        Part::Map(pairs) => pairs_bound(pairs),
        Part::Send { channel, args, .. } => plus(term_bound(channel), terms_bound(args)),
        Part::Receive { .. } => 0,
        Part::New { .. } => 0,
        Part::Match { .. } => 0,
        Part::Bundle { body, .. } => term_bound(body),
        Part::Unary { arg, .. } => term_bound(arg),
        Part::Binary { left, right, .. } => plus(term_bound(left), term_bound(right)),
        Part::Method { target, args, .. } => plus(term_bound(target), terms_bound(args)),
    }
}

/// How many variables a pattern binds.
#[cycle(pattern)]
pub fn pat_bound(pat: &TermPat) -> u64
    ensures { result ≡ in_u64 (bound_count pat.now) }
{
    let parts = pat.parts();
    let mut total = 0;
    for part in parts {
        total = plus(total, pat_part_bound(part));
    }
    total
}

#[cycle(pattern)]
fn pat_part_bound(part: &PatPart) -> u64
    ensures { result ≡ in_u64 (bound_count (pat_part_tree part.now)) }
{
    match part {
        PatPart::Wild => 0,
        PatPart::Var => 1,
        PatPart::NameVar => 1,
        PatPart::Simple(_) => 0,
        PatPart::Same(_) => 0,
        PatPart::Ground(_) => 0,
        PatPart::Both(left, right) => plus(pat_bound(left), pat_bound(right)),
        PatPart::Either(left, right) => plus(pat_bound(left), pat_bound(right)),
        PatPart::Not(inner) => pat_bound(inner),
        PatPart::List(members, rest) => plus(pats_bound(members), rest_bound(*rest)),
        PatPart::Tuple(members) => pats_bound(members),
        PatPart::Set(members, rest) => plus(pats_bound(members), rest_bound(*rest)),
        PatPart::Map(pairs, rest) => plus(pat_pairs_bound(pairs), rest_bound(*rest)),
        PatPart::Send { channel, args, .. } => plus(pat_bound(channel), pats_bound(args)),
        PatPart::Bundle { body, .. } => pat_bound(body),
        PatPart::Closed(part) => part_bound(part),
    }
}

/// How many variables the binds of a receive bind.
pub fn binds_bound(binds: &Vec<TermBind>) -> u64
    ensures { result ≡ in_u64 (bound_counts (trees (map bind_tree binds.now.items))) }
{
    let mut total = 0;
    for bind in binds {
        total = plus(total, bind_bound(bind));
    }
    total
}

/// How many variables a bind binds.
pub fn bind_bound(bind: &TermBind) -> u64
    ensures { result ≡ in_u64 (bound_count (bind_tree bind.now)) }
{
    let pats = plus(pats_bound(&bind.pats), rest_bound(bind.rest));
    plus(term_bound(&bind.channel), pats)
}

#[cycle(bound)]
fn terms_bound(terms: &Vec<Term>) -> u64
    ensures { result ≡ in_u64 (bound_counts (trees terms.now.items)) }
{
    let mut total = 0;
    for term in terms {
        total = plus(total, term_bound(term));
    }
    total
}

#[cycle(bound)]
fn pairs_bound(pairs: &Vec<(Term, Term)>) -> u64
    ensures { result ≡ in_u64 (bound_counts (trees (map pair_tree pairs.now.items))) }
{
    let mut total = 0;
    for pair in pairs {
        total = plus(total, plus(term_bound(&pair.0), term_bound(&pair.1)));
    }
    total
}

#[cycle(pattern)]
fn pats_bound(pats: &Vec<TermPat>) -> u64
    ensures { result ≡ in_u64 (bound_counts (trees pats.now.items)) }
{
    let mut total = 0;
    for pat in pats {
        total = plus(total, pat_bound(pat));
    }
    total
}

#[cycle(pattern)]
fn pat_pairs_bound(pairs: &Vec<(TermPat, TermPat)>) -> u64
    ensures { result ≡ in_u64 (bound_counts (trees (map pair_tree pairs.now.items))) }
{
    let mut total = 0;
    for pair in pairs {
        total = plus(total, plus(pat_bound(&pair.0), pat_bound(&pair.1)));
    }
    total
}

fn rest_bound(rest: TermRest) -> u64
    ensures { result ≡ own_count (rest_form rest) 0 }
{
    match rest {
        TermRest::No => 0,
        TermRest::Var => 1,
        TermRest::Wild => 0,
    }
}

/// The sum, as far as a u64 goes.
pub fn plus(a: u64, b: u64) -> u64
    ensures { result ≡ in_u64 (a + b) }
{
    a.saturating_add(b)
}
