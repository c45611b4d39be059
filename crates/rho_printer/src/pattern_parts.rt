// The texts of the parts of patterns. Each function gives the number of the next variable.
ghost use Rattle.rho_term.specs.Normal.{IsOrdered};
ghost use Rattle.rho_term.specs.Parts.{pat_part_tree};
ghost use Rattle.printed_leaves.specs.Texts.{Wrote, WritesJoined, WritesPart};

use crate::parts::put_part;
use crate::patterns::{put_name_pat, put_pat, put_pat_operand, put_pat_pairs, put_pats};
use crate::terms::put_term;
use printed_leaves::{Page, look_inside, rights_word, send_marks, simple_word, tuple_end};
use rho_term::{PatPart, TermPat};

#[cycle(print)]
pub(crate) fn put_pat_part(page: &mut Page, part: &PatPart, depth: usize, next: usize) -> usize
    requires { IsOrdered (pat_part_tree part.now) }
    ensures { Wrote page.old page.new (WritesPart (pat_part_tree part.now) depth next result) }
{
    match part {
        PatPart::Wild => {
            page.word(b"_");
            next
        }
        PatPart::Var => page.new_variable(next),
        PatPart::NameVar => page.new_variable(next),
        PatPart::Simple(kind) => {
            page.word(simple_word(*kind));
            next
        }
        PatPart::Same(term) => {
            page.word(b"={");
            put_term(page, term, depth);
            page.word(b"}");
            next
        }
        PatPart::Ground(value) => {
            page.ground(value);
            next
        }
        PatPart::Both(left, right) => put_joined(page, left, b" /\\ ", right, depth, next),
        PatPart::Either(left, right) => put_joined(page, left, b" \\/ ", right, depth, next),
        PatPart::Not(inner) => {
            page.word(b"~");
            put_pat_operand(page, inner, depth, next)
        }
        PatPart::List(members, rest) => {
            page.word(b"[");
            let middle = put_pats(page, members, depth, next);
            let after = page.rest(members.len(), b" ", b"...", *rest, middle);
            page.word(b"]");
            after
        }
        PatPart::Tuple(members) => {
            page.word(b"(");
            let after = put_pats(page, members, depth, next);
            page.word(tuple_end(members.len()));
            after
        }
        PatPart::Set(members, rest) => {
            page.word(b"Set(");
            let middle = put_pats(page, members, depth, next);
            let after = page.rest(members.len(), b" ", b"...", *rest, middle);
            page.word(b")");
            after
        }
        PatPart::Map(pairs, rest) => {
            page.word(b"{");
            let middle = put_pat_pairs(page, pairs, depth, next);
            let after = page.rest(pairs.len(), b" ", b"...", *rest, middle);
            page.word(b"}");
            after
        }
        PatPart::Send {
            channel,
            args,
            persistent,
        } => {
            let middle = put_name_pat(page, channel, depth, next);
            page.word(send_marks(*persistent));
            let after = put_pats(page, args, depth, middle);
            page.word(b")");
            after
        }
        PatPart::Bundle { rights, body } => {
            page.word(rights_word(*rights));
            page.word(b"{ ");
            let after = put_pat(page, body, depth, next);
            page.word(b" }");
            after
        }
        // Its variables are numbered from the scope outside the pattern.
        PatPart::Closed(closed) => {
            look_inside(closed);
            put_part(page, closed, depth);
            next
        }
    }
}

// Two patterns with a sign between them.
#[cycle(print)]
fn put_joined(
    page: &mut Page,
    left: &TermPat,
    sign: &[u8],
    right: &TermPat,
    depth: usize,
    next: usize,
) -> usize
    ensures { Wrote page.old page.new (WritesJoined left.now sign.now right.now depth next result) }
{
    page.word(b"(");
    let middle = put_pat_operand(page, left, depth, next);
    page.word(sign);
    let after = put_pat_operand(page, right, depth, middle);
    page.word(b")");
    after
}
