// The measures of parts and of what stands in them. A process and a pattern keep theirs, so none that stands inside is
// walked again. Beside them each call says that what it measured is in normal order. What stands in a row is measured
// with the four bytes of its number.

ghost use Rattle.std.specs.Prelude.{◌≡◌, map, All};
ghost use Rattle.calculus.specs.Form.{term, part as of_part, a_bind, a_case, pat, name_pat, pat_part, row_of, pair_of};
ghost use Rattle.calculus.specs.Shape.{leaf as leaf_of, many};
ghost use Rattle.calculus.specs.Tree.{trees, row, fresh};
ghost use Rattle.rho_term.specs.Parts.{part_tree, pat_part_tree, ground_tree, pair_tree, bind_tree, case_tree, term_tree, pat_tree};
ghost use Rattle.rho_term.specs.Normal.{AreNormal, IsOrdered};
ghost use Rattle.rho_term.specs.Measures.{sign};
ghost use Rattle.rho_term.specs.Sizes.{in_u64, size};
ghost use Rattle.rho_term.specs.Faults.{faults};
ghost use Rattle.rho_term.specs.Measured.{IsCount, IsMeasured, IsFormMeasured};

use crate::faults::{closed_faults, digest_faults, name_part_faults};
use crate::measures::{Measures, greater, join, leaf, one, plus, tuple, two};
use crate::term::{Part, PatPart, Term, TermBind, TermCase, TermPat};
use calculus::Ground;

/// The measures of a process of these parts.
pub(crate) fn parts_measures(parts: &Vec<Part>) -> Measures
    ensures count { IsCount term (term_tree parts.now.items) result }
    ensures normal { All (λ p. IsOrdered (part_tree p)) parts.now.items → AreNormal (trees (map part_tree parts.now.items)) }
{
    let mut total = leaf(4);
    for part in parts {
        total = join(total, part_measures(part));
    }
    total
}

/// The measures of a pattern of these parts, and whether it has faults as a pattern of names.
pub(crate) fn pat_parts_measures(parts: &Vec<PatPart>) -> (Measures, u32)
    ensures count { IsCount pat (pat_tree parts.now.items) result.0 }
    ensures names { result.1 ≡ sign (faults name_pat (pat_tree parts.now.items)) }
    ensures normal { All (λ p. IsOrdered (pat_part_tree p)) parts.now.items → AreNormal (trees (map pat_part_tree parts.now.items)) }
{
    let mut total = leaf(4);
    let mut names = 0;
    for part in parts {
        let found = pat_part_measures(part);
        total = join(total, found);
        names = greater(names, name_part_faults(part, found.faults));
    }
    (total, names)
}

/// The measures of a part of a process.
pub(crate) fn part_measures(part: &Part) -> Measures
    ensures { IsFormMeasured of_part (part_tree part.now) result }
{
    match part {
        Part::Ground(value) => leaf(ground_len(value)),
        Part::Fresh(name) => fresh_measures(&name.0),
        Part::Var(_) => leaf(5),
        Part::NameVar(_) => leaf(5),
        Part::List(members) => one(1, terms_measures(members)),
        Part::Tuple(members) => tuple(members.len(), terms_measures(members)),
        Part::Set(members) => one(1, terms_measures(members)),
        Part::Map(pairs) => one(1, pairs_measures(pairs)),
        Part::Send { channel, args, .. } => two(2, channel.measures(), terms_measures(args)),
        Part::Receive { binds, body, .. } => two(2, binds_measures(binds), body.measures()),
        Part::New { names, body } => one(plus(5, names.len() as u64), body.measures()),
        Part::Match { target, cases } => two(1, target.measures(), cases_measures(cases)),
        Part::Bundle { body, .. } => one(2, body.measures()),
        Part::Unary { arg, .. } => one(2, arg.measures()),
        Part::Binary { left, right, .. } => two(2, left.measures(), right.measures()),
        Part::Method { name, target, args } => {
            let length = plus(5, name.as_str().len() as u64);
            two(length, target.measures(), terms_measures(args))
        }
    }
}

// The measures of a part of a pattern. A remainder takes one byte.
fn pat_part_measures(part: &PatPart) -> Measures
    ensures { IsFormMeasured pat_part (pat_part_tree part.now) result }
{
    match part {
        PatPart::Wild => leaf(1),
        PatPart::Var => leaf(1),
        PatPart::NameVar => Measures {
            height: 0,
            faults: 1,
            length: 1,
        },
        PatPart::Simple(_) => leaf(2),
        PatPart::Same(process) => one(1, process.measures()),
        PatPart::Ground(value) => leaf(ground_len(value)),
        PatPart::Both(left, right) => two(1, left.measures(), right.measures()),
        PatPart::Either(left, right) => two(1, left.measures(), right.measures()),
        PatPart::Not(inner) => one(1, inner.measures()),
        PatPart::List(members, _) => one(2, pats_measures(members)),
        PatPart::Tuple(members) => tuple(members.len(), pats_measures(members)),
        PatPart::Set(members, _) => one(2, pats_measures(members)),
        PatPart::Map(pairs, _) => one(2, pat_pairs_measures(pairs)),
        PatPart::Send { channel, args, .. } => two(2, channel.name_measures(), pats_measures(args)),
        PatPart::Bundle { body, .. } => one(2, body.measures()),
        PatPart::Closed(part) => closed_measures(part),
    }
}

// A closed form in a pattern.
fn closed_measures(part: &Part) -> Measures
    ensures { IsFormMeasured pat_part (part_tree part.now) result }
{
    let found = part_measures(part);
    Measures {
        height: found.height,
        faults: closed_faults(part, found.faults),
        length: found.length,
    }
}

fn terms_measures(terms: &Vec<Term>) -> Measures
    ensures { IsMeasured (row_of term) (many row terms.now.items) result }
{
    let mut total = leaf(4);
    for term in terms {
        total = join(total, term.measures());
    }
    total
}

fn pairs_measures(pairs: &Vec<(Term, Term)>) -> Measures
    ensures { IsMeasured (row_of (pair_of term)) (many row (map pair_tree pairs.now.items)) result }
{
    let mut total = leaf(4);
    for pair in pairs {
        let both = join(pair.0.measures(), pair.1.measures());
        total = join(total, both);
    }
    total
}

// A bind has its channel, its patterns in a row, and one byte for the remainder.
fn binds_measures(binds: &Vec<TermBind>) -> Measures
    ensures { IsMeasured (row_of a_bind) (many row (map bind_tree binds.now.items)) result }
{
    let mut total = leaf(4);
    for bind in binds {
        let pats = join(leaf(1), name_pats_measures(&bind.pats));
        let both = join(bind.channel.measures(), pats);
        total = join(total, both);
    }
    total
}

fn cases_measures(cases: &Vec<TermCase>) -> Measures
    ensures { IsMeasured (row_of a_case) (many row (map case_tree cases.now.items)) result }
{
    let mut total = leaf(4);
    for case in cases {
        let both = join(case.pat.measures(), case.body.measures());
        total = join(total, both);
    }
    total
}

fn pats_measures(pats: &Vec<TermPat>) -> Measures
    ensures { IsMeasured (row_of pat) (many row pats.now.items) result }
{
    let mut total = leaf(4);
    for pat in pats {
        total = join(total, pat.measures());
    }
    total
}

// Patterns of names, which may have name variables.
fn name_pats_measures(pats: &Vec<TermPat>) -> Measures
    ensures { IsMeasured (row_of name_pat) (many row pats.now.items) result }
{
    let mut total = leaf(4);
    for pat in pats {
        total = join(total, pat.name_measures());
    }
    total
}

fn pat_pairs_measures(pairs: &Vec<(TermPat, TermPat)>) -> Measures
    ensures { IsMeasured (row_of (pair_of pat)) (many row (map pair_tree pairs.now.items)) result }
{
    let mut total = leaf(4);
    for pair in pairs {
        let both = join(pair.0.measures(), pair.1.measures());
        total = join(total, both);
    }
    total
}

fn fresh_measures(digest: &[u8]) -> Measures
    ensures { IsFormMeasured of_part (leaf_of (fresh digest.now)) result }
{
    Measures {
        height: 0,
        faults: digest_faults(digest),
        length: plus(1, digest.len() as u64),
    }
}

fn ground_len(value: &Ground) -> u64
    ensures { result ≡ in_u64 (size (ground_tree value.now)) }
{
    match value {
        Ground::Bool(_) => 2,
        Ground::Int(_) => 9,
        Ground::Str(text) => plus(5, text.as_str().len() as u64),
        Ground::Uri(text) => plus(5, text.as_str().len() as u64),
        Ground::Bytes(bytes) => plus(5, bytes.len() as u64),
    }
}
