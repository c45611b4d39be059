ghost use Rattle.std.specs.Prelude.{◌≡◌, IfOk};
ghost use Rattle.calculus.specs.Storing.{IsStorable};
ghost use Rattle.rho_term.specs.Rows.{row_of_op};

use crate::copies::copy_op;
use calculus::Digest;
use rho_term::Op;
use std::alloc::{AllocError, Global};
use std::marker::Model;

/// An operation that may be stored, seen as its row: its id and its part.
///
/// It is a closed send or receive within the limits of height and length, with 1 to 16 binds where it is
/// a receive, whose channels rise in their codes.
#[derive(Drop)]
pub struct Row {
    op: Op,
}

impl Model for Row {
    ghost use Rattle.calculus.specs.Rows.{Row as CalculusRow};
    ghost use Rattle.space_row.specs.Values.{row_value_code};

    ghost Value = { CalculusRow };

    ghost coded = { row_value_code };

    ghost use Rattle.calculus.specs.Storing.{IsStorable};
    ghost use Rattle.rho_term.specs.Rows.{row_of_op};

    ghost view = { λ a. row_of_op a.op };

    ghost invariant = { λ a. IsStorable (row_of_op a.op) };
}

impl Row {
    /// The row that an operation is.
    pub fn from_op(op: Op) -> Row
        requires { IsStorable (row_of_op op) }
        ensures { result ≡ row_of_op op }
    {
        Row { op }
    }

    /// The operation that it is.
    pub fn op(&self) -> &Op
        ensures is { row_of_op result.now ≡ self.now }
        ensures storable { IsStorable self.now }
    {
        &self.op
    }

    /// Its id.
    pub fn id(&self) -> Digest
        ensures { result.0 ≡ self.now.id }
    {
        match &self.op {
            Op::Produce { id, .. } => *id,
            Op::Consume { id, .. } => *id,
        }
    }

    /// An equal row. Want of memory is the one error.
    pub fn copy(&self, alloc: Global) -> Result<Row, AllocError>
        ensures { IfOk result (λ r. r ≡ self.now) }
    {
        Ok(Row {
            op: copy_op(alloc, &self.op)?,
        })
    }
}
