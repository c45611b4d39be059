// The texts of processes, of names and of the lists in them.
ghost use Rattle.std.specs.Prelude.{codes, map};
ghost use Rattle.calculus.specs.Form.{term as a_term, pair_of};
ghost use Rattle.calculus.specs.Printed.{operand_text, name_text};
ghost use Rattle.calculus.specs.Shape.{held};
ghost use Rattle.rho_term.specs.Parts.{pair_tree};
ghost use Rattle.printed_leaves.specs.Texts.{Wrote, Writes, WritesAll, WritesAs};

use crate::parts::put_part;
use printed_leaves::{Page, is_atom};
use rho_term::Term;

#[cycle(print)]
pub(crate) fn put_term(page: &mut Page, term: &Term, depth: usize)
    ensures { Wrote page.old page.new (Writes a_term term.now depth) }
{
    let parts = term.parts();
    page.word_if(parts.is_empty(), b"Nil");
    for i in 0..parts.len() {
        page.separate(i, b" | ");
        put_part(page, &parts[i], depth);
    }
}

// A process where an operand stands.
#[cycle(print)]
pub(crate) fn put_operand(page: &mut Page, term: &Term, depth: usize)
    ensures { Wrote page.old page.new (WritesAs (operand_text (held term.now)) term.now depth) }
{
    let bare = is_atom(term);
    page.word_unless(bare, b"{");
    put_term(page, term, depth);
    page.word_unless(bare, b"}");
}

// The name that quotes a process.
#[cycle(print)]
pub(crate) fn put_name(page: &mut Page, term: &Term, depth: usize)
    ensures { Wrote page.old page.new (WritesAs (name_text (held term.now)) term.now depth) }
{
    if page.name(term, depth) {
        return;
    }
    put_operand(page, term, depth);
}

#[cycle(print)]
pub(crate) fn put_terms(page: &mut Page, terms: &[Term], depth: usize)
    ensures { Wrote page.old page.new (WritesAll (codes ", ") a_term terms.now depth) }
{
    for i in 0..terms.len() {
        page.separate(i, b", ");
        put_term(page, &terms[i], depth);
    }
}

// Keys with their values.
#[cycle(print)]
pub(crate) fn put_pairs(page: &mut Page, pairs: &[(Term, Term)], depth: usize)
    ensures { Wrote page.old page.new (WritesAll (codes ", ") (pair_of a_term) (map pair_tree pairs.now) depth) }
{
    for i in 0..pairs.len() {
        let pair = &pairs[i];
        page.separate(i, b", ");
        put_term(page, &pair.0, depth);
        page.word(b": ");
        put_term(page, &pair.1, depth);
    }
}
