// The texts of patterns. Each function gives the number of the next variable.
ghost use Rattle.std.specs.Prelude.{map};
ghost use Rattle.calculus.specs.Form.{name_pat, pat, pair_of};
ghost use Rattle.calculus.specs.Printed.{operand_text};
ghost use Rattle.calculus.specs.Shape.{held};
ghost use Rattle.rho_term.specs.Parts.{pair_tree};
ghost use Rattle.printed_leaves.specs.Texts.{Wrote, WritesFrom, WritesListed, WritesPattern};

use crate::pattern_parts::put_pat_part;
use printed_leaves::{Page, is_bare, is_pattern_atom};
use rho_term::TermPat;

#[cycle(print)]
pub(crate) fn put_pat(page: &mut Page, pattern: &TermPat, depth: usize, next: usize) -> usize
    ensures { Wrote page.old page.new (WritesPattern (λ x. x) pattern.now depth next result) }
{
    let parts = pattern.parts();
    page.word_if(parts.is_empty(), b"Nil");
    let mut number = next;
    for i in 0..parts.len() {
        page.separate(i, b" | ");
        number = put_pat_part(page, &parts[i], depth, number);
    }
    number
}

// A pattern where an operand stands.
#[cycle(print)]
pub(crate) fn put_pat_operand(
    page: &mut Page,
    pattern: &TermPat,
    depth: usize,
    next: usize,
) -> usize
    ensures { Wrote page.old page.new (WritesPattern (operand_text (held pattern.now)) pattern.now depth next result) }
{
    let bare = is_pattern_atom(pattern);
    page.word_unless(bare, b"{");
    let after = put_pat(page, pattern, depth, next);
    page.word_unless(bare, b"}");
    after
}

// A pattern of names.
#[cycle(print)]
pub(crate) fn put_name_pat(page: &mut Page, pattern: &TermPat, depth: usize, next: usize) -> usize
    ensures { Wrote page.old page.new (WritesFrom name_pat pattern.now depth next result) }
{
    if is_bare(pattern) {
        return put_pat(page, pattern, depth, next);
    }
    page.word(b"@");
    put_pat_operand(page, pattern, depth, next)
}

#[cycle(print)]
pub(crate) fn put_name_pats(
    page: &mut Page,
    patterns: &[TermPat],
    depth: usize,
    next: usize,
) -> usize
    ensures { Wrote page.old page.new (WritesListed name_pat patterns.now depth next result) }
{
    let mut number = next;
    for i in 0..patterns.len() {
        page.separate(i, b", ");
        number = put_name_pat(page, &patterns[i], depth, number);
    }
    number
}

#[cycle(print)]
pub(crate) fn put_pats(page: &mut Page, patterns: &[TermPat], depth: usize, next: usize) -> usize
    ensures { Wrote page.old page.new (WritesListed pat patterns.now depth next result) }
{
    let mut number = next;
    for i in 0..patterns.len() {
        page.separate(i, b", ");
        number = put_pat(page, &patterns[i], depth, number);
    }
    number
}

// Patterns of keys with those of their values.
#[cycle(print)]
pub(crate) fn put_pat_pairs(
    page: &mut Page,
    pairs: &[(TermPat, TermPat)],
    depth: usize,
    next: usize,
) -> usize
    ensures { Wrote page.old page.new (WritesListed (pair_of pat) (map pair_tree pairs.now) depth next result) }
{
    let mut number = next;
    for i in 0..pairs.len() {
        let pair = &pairs[i];
        page.separate(i, b", ");
        let middle = put_pat(page, &pair.0, depth, number);
        page.word(b": ");
        number = put_pat(page, &pair.1, depth, middle);
    }
    number
}
