// The texts of the parts of processes.
ghost use Rattle.calculus.specs.Form.{part as a_part};
ghost use Rattle.calculus.specs.Shape.{one};
ghost use Rattle.calculus.specs.Tree.{unary};
ghost use Rattle.rho_term.specs.Normal.{IsOrdered};
ghost use Rattle.rho_term.specs.Parts.{part_tree};
ghost use Rattle.printed_leaves.specs.Texts.{Wrote, Writes};

use crate::binds::{put_binds, put_cases};
use crate::terms::{put_name, put_operand, put_pairs, put_term, put_terms};
use calculus::UnaryOp;
use printed_leaves::{Page, number_of, op_word, rights_word, send_marks, tuple_end};
use rho_term::{Part, Term};

#[cycle(print)]
pub(crate) fn put_part(page: &mut Page, part: &Part, depth: usize)
    requires { IsOrdered (part_tree part.now) }
    ensures { Wrote page.old page.new (Writes a_part (part_tree part.now) depth) }
{
    match part {
        Part::Ground(value) => page.ground(value),
        Part::Fresh(name) => {
            page.word(b"*");
            page.fresh(name);
        }
        Part::Var(index) => page.variable(number_of(depth, *index)),
        Part::NameVar(index) => {
            page.word(b"*");
            page.variable(number_of(depth, *index));
        }
        Part::List(members) => {
            page.word(b"[");
            put_terms(page, members, depth);
            page.word(b"]");
        }
        Part::Tuple(members) => {
            page.word(b"(");
            put_terms(page, members, depth);
            page.word(tuple_end(members.len()));
        }
        Part::Set(members) => {
            page.word(b"Set(");
            put_terms(page, members, depth);
            page.word(b")");
        }
        Part::Map(pairs) => {
            page.word(b"{");
            put_pairs(page, pairs, depth);
            page.word(b"}");
        }
        Part::Send {
            channel,
            args,
            persistent,
        } => {
            put_name(page, channel, depth);
            page.word(send_marks(*persistent));
            put_terms(page, args, depth);
            page.word(b")");
        }
        Part::Receive { kind, binds, body } => {
            page.word(b"for (");
            let inner = put_binds(page, *kind, binds, depth);
            page.word(b") { ");
            put_term(page, body, inner);
            page.word(b" }");
        }
        Part::New { names, body } => {
            page.word(b"new ");
            let inner = page.declared(names, depth);
            page.word(b" in { ");
            put_term(page, body, inner);
            page.word(b" }");
        }
        Part::Match { target, cases } => {
            page.word(b"match (");
            put_term(page, target, depth);
            page.word(b") { ");
            put_cases(page, cases, depth);
            page.word(b" }");
        }
        Part::Bundle { rights, body } => {
            page.word(rights_word(*rights));
            page.word(b"{ ");
            put_term(page, body, depth);
            page.word(b" }");
        }
        Part::Unary { op, arg } => put_unary(page, *op, arg, depth),
        Part::Binary { op, left, right } => {
            page.word(b"(");
            put_operand(page, left, depth);
            page.word(op_word(*op));
            put_operand(page, right, depth);
            page.word(b")");
        }
        Part::Method { name, target, args } => {
            page.word(b"(");
            put_operand(page, target, depth);
            page.word(b").");
            page.word(name.as_bytes());
            page.word(b"(");
            put_terms(page, args, depth);
            page.word(b")");
        }
    }
}

#[cycle(print)]
fn put_unary(page: &mut Page, op: UnaryOp, arg: &Term, depth: usize)
    ensures { Wrote page.old page.new (Writes a_part (one (unary op) arg.now) depth) }
{
    match op {
        UnaryOp::Not => {
            page.word(b"(not ");
            put_operand(page, arg, depth);
            page.word(b")");
        }
        UnaryOp::Neg => {
            page.word(b"(-{");
            put_term(page, arg, depth);
            page.word(b"})");
        }
    }
}
