// Codes of rows, keys of their groups, and rows as processes.
ghost use Rattle.std.specs.Prelude.{◌≡◌, IfOk};
ghost use Rattle.calculus.specs.Root.{key};
ghost use Rattle.calculus.specs.Rows.{row_code as code_of_row};
ghost use Rattle.calculus.specs.Shape.{only};

use crate::copies::{copy_binds, copy_terms};
use crate::row::Row;
use calculus::Digest;
use rho_term::{Op, Part, Term};
use std::alloc::{AllocError, Global};
use term_encoder::{encode_op, op_key};

/// The code of a row. Want of memory is the one error.
pub fn row_code(alloc: Global, row: &Row) -> Result<Vec<u8>, AllocError>
    ensures { IfOk result (λ v. v.items ≡ code_of_row row.now) }
{
    encode_op(alloc, row.op())
}

/// The key of a row's group: the digest of the code of its channels. Want of memory is the one error.
pub fn row_key(alloc: Global, row: &Row) -> Result<Digest, AllocError>
    ensures { IfOk result (λ d. d.0 ≡ key row.now) }
{
    op_key(alloc, row.op())
}

/// A row as the process of its part alone. Want of memory is the one error.
pub fn row_term(alloc: Global, row: &Row) -> Result<Term, AllocError>
    ensures { IfOk result (λ t. t ≡ only row.now.part) }
{
    match row.op() {
        Op::Produce {
            channel,
            args,
            persistent,
            ..
        } => {
            let channel = channel.copy(alloc)?;
            let args = copy_terms(alloc, args)?;
            let persistent = *persistent;
            Term::from_part(
                alloc,
                Part::Send {
                    channel,
                    args,
                    persistent,
                },
            )
        }
        Op::Consume {
            kind,
            binds,
            body,
            ..
        } => {
            let kind = *kind;
            let binds = copy_binds(alloc, binds)?;
            let body = body.copy(alloc)?;
            Term::from_part(alloc, Part::Receive { kind, binds, body })
        }
    }
}
