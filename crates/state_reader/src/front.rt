// The row at the front of bytes, where it may be stored.
ghost use Rattle.std.specs.Prelude.{◌≡◌, ◌<◌, ◌++◌, ◌^◌, drop, length, map, true, false, not, IfOk};
ghost use Rattle.calculus.specs.Code.{code as code_of_term};
ghost use Rattle.calculus.specs.CodeLaws.{IsShort};
ghost use Rattle.calculus.specs.Form.{IsClosed};
ghost use Rattle.calculus.specs.Order.{up_to};
ghost use Rattle.calculus.specs.Rows.{row_code};
ghost use Rattle.calculus.specs.Storing.{AreRising, IsStorable};
ghost use Rattle.rho_term.specs.Rows.{row_of_op};
ghost use Rattle.row_reader.specs.RowCodes.{IsRow};
ghost use Rattle.row_reader.specs.declared.front.RowFault.TheVariants.{Cut, Wrong};
ghost use Rattle.state_reader.specs.Files.{HasNoRow};
ghost use Rattle.state_reader.specs.Fronts.{AreTargets};
ghost use Rattle.state_reader.specs.Reading.{IsCutThere};

use rho_term::{Op, Term, TermBind};
use row_reader::{RowFault, decode_row};
use space_row::Row;
use std::alloc::Global;
use std::cmp::Ordering;
use term_order::cmp_terms;

/// The greatest length of the code of a row that may be stored.
const MOST_LENGTH: usize = 1_048_576;

/// The row that may be stored whose code stands at the front of bytes, and the length of this code.
pub(crate) fn read_front(alloc: Global, bytes: &[u8]) -> Result<(Row, usize), RowFault>
    ensures storable { IfOk result (λ p. IsStorable p.0) }
    ensures row { IfOk result (λ p. bytes.now ≡ row_code p.0 ++ drop p.1 bytes.now) }
    ensures length { IfOk result (λ p. p.1 ≡ length (row_code p.0)) }
    ensures cut { result ≡ Err Cut → IsCutThere bytes.now }
    ensures wrong { length bytes.now < 2 ^ 32 → result ≡ Err Wrong → HasNoRow bytes.now }
{
    let (op, len) = match decode_row(alloc, bytes) {
        Ok(read) => read,
        Err(fault) => return Err(fault),
    };
    if !may_be_stored(&op, len) {
        return Err(RowFault::Wrong);
    }
    Ok((Row::from_op(op), len))
}

// Whether a row whose code has this length may be stored.
fn may_be_stored(op: &Op, len: usize) -> bool
    requires row { IsRow (row_of_op op.now) }
    requires length { len ≡ length (row_code (row_of_op op.now)) }
    ensures yes { result ≡ true → IsStorable (row_of_op op.now) }
    ensures no { result ≡ false → IsStorable (row_of_op op.now) → ⊥ }
{
    if len > MOST_LENGTH {
        return false;
    }
    match op {
        Op::Produce { .. } => true,
        Op::Consume { binds, .. } => channels_rise(binds),
    }
}

// Whether the channels of binds rise in their codes.
fn channels_rise(binds: &Vec<TermBind>) -> bool
    requires { AreTargets (map (λ b. b.channel) binds.now.items) }
    ensures yes { result ≡ true → AreRising (map (λ b. code_of_term b.channel) binds.now.items) }
    ensures no { result ≡ false → AreRising (map (λ b. code_of_term b.channel) binds.now.items) → ⊥ }
{
    for i in 1..binds.len() {
        if !is_less(&binds[i - 1].channel, &binds[i].channel) {
            return false;
        }
    }
    true
}

// Whether the code of a channel is less than that of another.
fn is_less(a: &Term, b: &Term) -> bool
    requires a { IsClosed a.now × IsShort a.now }
    requires b { IsClosed b.now × IsShort b.now }
    ensures { result ≡ not (up_to (code_of_term b.now) (code_of_term a.now)) }
{
    cmp_terms(b, a) == Ordering::Greater
}
