// The texts of binds and of cases.
ghost use Rattle.std.specs.Prelude.{map, codes};
ghost use Rattle.calculus.specs.Form.{a_case};
ghost use Rattle.rho_term.specs.Parts.{bind_tree, case_tree};
ghost use Rattle.printed_leaves.specs.Texts.{Wrote, WritesAll, WritesBind, WritesBinds};

use crate::patterns::{put_name_pats, put_pat};
use crate::terms::{put_name, put_term};
use calculus::Kind;
use printed_leaves::{Page, arrow};
use rho_term::{TermBind, TermCase};

// The binds of a receive. Gives the number of variables in scope under them.
#[cycle(print)]
pub(crate) fn put_binds(page: &mut Page, kind: Kind, binds: &[TermBind], depth: usize) -> usize
    ensures { Wrote page.old page.new (WritesBinds kind (map bind_tree binds.now) depth result) }
{
    let mut next = depth;
    for i in 0..binds.len() {
        page.separate(i, b" & ");
        next = put_bind(page, kind, &binds[i], depth, next);
    }
    next
}

#[cycle(print)]
fn put_bind(page: &mut Page, kind: Kind, bind: &TermBind, depth: usize, next: usize) -> usize
    ensures { Wrote page.old page.new (WritesBind kind (bind_tree bind.now) depth next result) }
{
    let start = page.len();
    let middle = put_name_pats(page, &bind.pats, depth, next);
    let after = page.rest(bind.pats.len(), b", ", b"...@", bind.rest, middle);
    page.space_since(start);
    page.word(arrow(kind));
    put_name(page, &bind.channel, depth);
    after
}

#[cycle(print)]
pub(crate) fn put_cases(page: &mut Page, cases: &[TermCase], depth: usize)
    ensures { Wrote page.old page.new (WritesAll (codes " ") a_case (map case_tree cases.now) depth) }
{
    for i in 0..cases.len() {
        let case = &cases[i];
        page.separate(i, b" ");
        page.word(b"(");
        let inner = put_pat(page, &case.pat, depth, depth);
        page.word(b") => { ");
        put_term(page, &case.body, inner);
        page.word(b" }");
    }
}
