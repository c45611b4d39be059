// Copies of operations and of what stands in them.
ghost use Rattle.std.specs.Prelude.{◌≡◌, map, IfOk};
ghost use Rattle.rho_term.specs.Parts.{bind_tree};
ghost use Rattle.rho_term.specs.Rows.{row_of_op};

use rho_term::{Op, Term, TermBind, with_room};
use std::alloc::{AllocError, Global};

// An operation with the same row.
pub(crate) fn copy_op(alloc: Global, op: &Op) -> Result<Op, AllocError>
    ensures { IfOk result (λ o. row_of_op o ≡ row_of_op op.now) }
{
    match op {
        Op::Produce {
            id,
            channel,
            args,
            persistent,
        } => Ok(Op::Produce {
            id: *id,
            channel: channel.copy(alloc)?,
            args: copy_terms(alloc, args)?,
            persistent: *persistent,
        }),
        Op::Consume {
            id,
            kind,
            binds,
            body,
        } => Ok(Op::Consume {
            id: *id,
            kind: *kind,
            binds: copy_binds(alloc, binds)?,
            body: body.copy(alloc)?,
        }),
    }
}

// The same processes.
pub(crate) fn copy_terms(alloc: Global, terms: &Vec<Term>) -> Result<Vec<Term>, AllocError>
    ensures { IfOk result (λ v. v.items ≡ terms.now.items) }
{
    let mut copies = with_room(alloc, terms.len());
    for term in terms {
        copies.push(term.copy(alloc)?)?;
    }
    Ok(copies)
}

// Binds that stand for the same trees.
pub(crate) fn copy_binds(alloc: Global, binds: &Vec<TermBind>) -> Result<Vec<TermBind>, AllocError>
    ensures { IfOk result (λ v. map bind_tree v.items ≡ map bind_tree binds.now.items) }
{
    let mut copies = with_room(alloc, binds.len());
    for bind in binds {
        copies.push(bind.copy(alloc)?)?;
    }
    Ok(copies)
}
