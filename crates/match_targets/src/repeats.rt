// Whether a target equals the one before it, which is not used: what failed with that one fails with this one too.
ghost use Rattle.std.specs.Prelude.{◌≡◌, ◌<◌, true, length, map};
ghost use Rattle.calculus.specs.Form.{pair_of, term};
ghost use Rattle.calculus.specs.Shape.{held};
ghost use Rattle.rho_term.specs.Parts.{pair_tree};
ghost use Rattle.match_targets.specs.Targets.{AllReady, Ready, Repeats};

use free_places::is_free;
use rho_term::Term;
use term_order::{cmp_terms, part_order};

/// Whether a part of a process equals the one before it, which is not used.
pub fn repeats_part(target: &Term, used: &[usize], j: usize) -> bool
    requires ready { Ready term target.now }
    requires within { j < length (held target.now) }
    ensures { result ≡ true → Repeats used.now (held target.now) j }
{
    if j == 0 {
        return false;
    }
    if !is_free(used, j - 1) {
        return false;
    }
    let parts = target.parts();
    part_order(&parts[j - 1], &parts[j]).is_eq()
}

/// The same for a member of a set.
pub fn repeats_member(terms: &[Term], used: &[usize], j: usize) -> bool
    requires ready { AllReady term terms.now }
    requires within { j < length terms.now }
    ensures { result ≡ true → Repeats used.now terms.now j }
{
    if j == 0 {
        return false;
    }
    if !is_free(used, j - 1) {
        return false;
    }
    same_term(&terms[j - 1], &terms[j])
}

/// The same for a pair of a map.
pub fn repeats_pair(pairs: &[(Term, Term)], used: &[usize], j: usize) -> bool
    requires ready { AllReady (pair_of term) (map pair_tree pairs.now) }
    requires within { j < length pairs.now }
    ensures { result ≡ true → Repeats used.now (map pair_tree pairs.now) j }
{
    if j == 0 {
        return false;
    }
    if !is_free(used, j - 1) {
        return false;
    }
    same_pair(&pairs[j - 1], &pairs[j])
}

fn same_pair(a: &(Term, Term), b: &(Term, Term)) -> bool
    requires a { Ready (pair_of term) (pair_tree a.now) }
    requires b { Ready (pair_of term) (pair_tree b.now) }
    ensures { result ≡ true → pair_tree a.now ≡ pair_tree b.now }
{
    if !same_term(&a.0, &b.0) {
        return false;
    }
    same_term(&a.1, &b.1)
}

fn same_term(a: &Term, b: &Term) -> bool
    requires a { Ready term a.now }
    requires b { Ready term b.now }
    ensures { result ≡ true → a.now ≡ b.now }
{
    if a.height() != b.height() {
        return false;
    }
    cmp_terms(a, b).is_eq()
}
