// That rows are in normal order: each of their processes and patterns is, by its type.
ghost use Rattle.std.specs.Prelude.{map};
ghost use Rattle.calculus.specs.Tree.{trees};
ghost use Rattle.rho_term.specs.Normal.{AreNormal, IsNormal};
ghost use Rattle.rho_term.specs.Parts.{bind_tree};
ghost use Rattle.run_inputs.specs.Bases.{AreNormalRows};

use rho_term::{Op, Term, TermBind, TermPat};
use space_row::Row;

// These rows are in normal order.
pub(crate) fn see_rows(rows: &[Row])
    ensures { AreNormalRows rows.now }
{
    for row in rows {
        see_row(row);
    }
}

// This row is.
fn see_row(row: &Row)
    ensures { IsNormal row.now.part }
{
    match row.op() {
        Op::Produce { channel, args, .. } => {
            let _height = channel.height();
            see_terms(args);
        }
        Op::Consume { binds, body, .. } => {
            see_binds(binds);
            let _height = body.height();
        }
    }
}

// These processes are.
fn see_terms(terms: &Vec<Term>)
    ensures { AreNormal (trees terms.now.items) }
{
    for term in terms {
        let _height = term.height();
    }
}

// These binds are.
fn see_binds(binds: &Vec<TermBind>)
    ensures { AreNormal (trees (map bind_tree binds.now.items)) }
{
    for bind in binds {
        see_bind(bind);
    }
}

// This bind is.
fn see_bind(bind: &TermBind)
    ensures { IsNormal (bind_tree bind.now) }
{
    let _height = bind.channel.height();
    see_pats(&bind.pats);
}

// These patterns are.
fn see_pats(pats: &Vec<TermPat>)
    ensures { AreNormal (trees pats.now.items) }
{
    for pat in pats {
        let _parts = pat.parts();
    }
}
