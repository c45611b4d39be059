// Reading of the code of a row at the front of bytes.
ghost use Rattle.std.specs.Prelude.{◌≡◌, ◌≤◌, ◌∷◌, ◌++◌, ◌<◌, ◌^◌, drop, length, List, ℕ, map, IfOk, IfErr};
ghost use Rattle.calculus.specs.Code.{code};
ghost use Rattle.calculus.specs.Form.{a_bind, row_of};
ghost use Rattle.calculus.specs.Order.{IsAscending};
ghost use Rattle.calculus.specs.Rows.{row_code, Row};
ghost use Rattle.calculus.specs.Shape.{many};
ghost use Rattle.calculus.specs.Tree.{row};
ghost use Rattle.calculus.specs.Variables.{bound};
ghost use Rattle.rho_term.specs.Parts.{bind_tree};
ghost use Rattle.rho_term.specs.Rows.{row_of_op};
ghost use Rattle.code_faults.specs.Reading.{Reads};
ghost use Rattle.row_reader.specs.RowCodes.{BegunJoin, fault_of, IsCutRow, IsRow, ReadsRow, RefusesJoin, RefusesRows, WhereCut};
ghost use Rattle.code_faults.specs.Scopes.{scope_of, senses_of};
ghost use Rattle.row_reader.specs.declared.front.RowFault.TheVariants.{Cut, Wrong};

use rho_term::{Op, TermBind};
use std::alloc::Global;
use term_code::{ReadFault, Reader, Sense, check_order, read_name_pats, read_term, read_terms};

/// The height that is left for what stands in a row.
const ROOM: u32 = 399;

/// Why no row stands at the front of bytes.
#[derive(Clone, Copy, Debug, PartialEq, Eq, Drop)]
pub enum RowFault {
    /// They are a proper prefix of the code of a row, of whatever length.
    Cut,
    /// They begin with the code of no row, and are no prefix of one.
    Wrong,
    NoMemory,
}

/// The row whose code stands at the front of bytes, and the length of this code.
///
/// It is closed, of height at most 400, and has an id; a receive has 1 to 16 binds, whose channels ascend in
/// their codes, and two of which may be on one channel. How long the code is plays no part.
pub fn decode_row(alloc: Global, bytes: &[u8]) -> Result<(Op, usize), RowFault>
    ensures row { IfOk result (λ p. ReadsRow (row_of_op p.0) bytes.now (drop p.1 bytes.now)) }
    ensures length { IfOk result (λ p. p.1 ≡ length (row_code (row_of_op p.0))) }
    ensures cut { result ≡ Err Cut → IsCutRow bytes.now }
    ensures whole { length bytes.now < 2 ^ 32 → result ≡ Err Cut → (r : Row) (y : List ℕ) → IsRow r →
        length (row_code r) < 2 ^ 32 → bytes.now ≡ row_code r ++ y → ⊥ }
    ensures wrong { length bytes.now < 2 ^ 32 → result ≡ Err Wrong → (r : Row) (x y : List ℕ) → IsRow r →
        length (row_code r) < 2 ^ 32 → bytes.now ++ x ≡ row_code r ++ y → ⊥ }
{
    let mut reader = Reader {
        alloc,
        input: bytes,
        whole: bytes.len(),
    };
    match any_row(&mut reader) {
        Ok(op) => Ok((op, bytes.len().saturating_sub(reader.input.len()))),
        Err(fault) => Err(row_fault(fault)),
    }
}

// What a fault says of a row.
fn row_fault(fault: ReadFault) -> RowFault
    ensures { result ≡ fault_of fault }
{
    match fault {
        ReadFault::Short { .. } => RowFault::Cut,
        ReadFault::NoMemory => RowFault::NoMemory,
        _ => RowFault::Wrong,
    }
}

// A row.
fn any_row(reader: &mut Reader<'_>) -> Result<Op, ReadFault>
    ensures reads { IfOk result (λ o. ReadsRow (row_of_op o) reader.old.input.now reader.new.input.now) }
    ensures refuses { IfErr result (λ e. RefusesRows e reader.old.input.now) }
    ensures begun { IfErr result (λ e. WhereCut e (IsCutRow reader.old.input.now)) }
{
    match reader.byte()? {
        0x01 => send_row(reader),
        0x02 => receive_row(reader),
        _ => Err(ReadFault::NotCanonical {
            at: reader.last_place(),
        }),
    }
}

// The row of a send after its first byte.
fn send_row(reader: &mut Reader<'_>) -> Result<Op, ReadFault>
    ensures reads { IfOk result (λ o. ReadsRow (row_of_op o) (0x01 ∷ reader.old.input.now) reader.new.input.now) }
    ensures refuses { IfErr result (λ e. RefusesRows e (0x01 ∷ reader.old.input.now)) }
    ensures begun { IfErr result (λ e. WhereCut e (IsCutRow (0x01 ∷ reader.old.input.now))) }
{
    let scope = Vec::new(reader.alloc);
    let id = reader.digest()?;
    let channel = read_term(reader, &scope, ROOM)?;
    let persistent = reader.boolean()?;
    let args = read_terms(reader, 0, &scope, ROOM)?;
    Ok(Op::Produce {
        id,
        channel,
        args,
        persistent,
    })
}

// The row of a receive after its first byte.
fn receive_row(reader: &mut Reader<'_>) -> Result<Op, ReadFault>
    ensures reads { IfOk result (λ o. ReadsRow (row_of_op o) (0x02 ∷ reader.old.input.now) reader.new.input.now) }
    ensures refuses { IfErr result (λ e. RefusesRows e (0x02 ∷ reader.old.input.now)) }
    ensures begun { IfErr result (λ e. WhereCut e (IsCutRow (0x02 ∷ reader.old.input.now))) }
{
    let scope = Vec::new(reader.alloc);
    let mut found = Vec::new(reader.alloc);
    let id = reader.digest()?;
    let kind = reader.kind()?;
    let binds = join(reader, &scope, &mut found, ROOM)?;
    let body = read_term(reader, &found, ROOM)?;
    Ok(Op::Consume {
        id,
        kind,
        binds,
        body,
    })
}

// 1 to 16 binds whose channels ascend in their codes. What their patterns bind is added to `found`.
fn join<'a>(
    reader: &mut Reader<'a>,
    scope: &Vec<Sense>,
    found: &mut Vec<Sense>,
    room: u32,
) -> Result<Vec<TermBind>, ReadFault>
    ensures reads { IfOk result (λ bs. Reads (row_of a_bind) (scope_of scope.now.items) room
        (many row (map bind_tree bs.items)) reader.old.input.now reader.new.input.now) }
    ensures bound { IfOk result (λ bs. senses_of found.new.items ≡ senses_of found.old.items ++ bound (many row (map bind_tree bs.items))) }
    ensures some { IfOk result (λ bs. 1 ≤ length bs.items) }
    ensures few { IfOk result (λ bs. length bs.items ≤ 16) }
    ensures ascending { IfOk result (λ bs. IsAscending (map (λ b. code b.channel) bs.items)) }
    ensures refuses { IfErr result (λ e. RefusesJoin (scope_of scope.now.items) room e reader.old.input.now) }
    ensures begun { IfErr result (λ e. WhereCut e (BegunJoin (scope_of scope.now.items) room reader.old.input.now)) }
{
    let count = reader.number(1, 16)?;
    let mut binds = reader.list(count);
    let mut last: &'a [u8] = &[];
    for _i in 0..count {
        let start = reader.input;
        check_order(last, start)?;
        let channel = read_term(reader, scope, room)?;
        last = reader.read_since(start, last)?;
        let pats = read_name_pats(reader, scope, found, room)?;
        let rest = reader.bound_remainder(true, found)?;
        binds.push(TermBind {
            pats,
            rest,
            channel,
        })?;
    }
    Ok(binds)
}
