ghost use Rattle.std.specs.Prelude.{◌≡◌, ◌++◌, IfOk, OnOk};
ghost use Rattle.hex.specs.Hex.{encode_lower};
ghost use Rattle.calculus.specs.Printed.{printed_text};
ghost use Rattle.calculus.specs.Shape.{only};
ghost use Rattle.run_inspects.specs.Listing.{listing, row_line, row_lines};

use checkpoint::Checkpoint;
use rho_printer::print_term;
use run_reports::state_report;
use space_row::{Row, row_term};
use std::alloc::{AllocError, Global};

/// The listing of a checkpoint's state: the line of its report, and then for each row, ascending in codes, a line with
/// its id in hexadecimal, a space, and its printed text as a process. Want of memory is the one error.
pub fn listing(alloc: Global, checkpoint: &Checkpoint) -> Result<Vec<u8>, AllocError>
    ensures { IfOk result (λ text. text.items ≡ listing checkpoint.now) }
{
    let rows = checkpoint.rows();
    let mut text = state_report(alloc, &checkpoint.root(), rows.len() as u64)?;
    add_rows(alloc, &mut text, rows)?;
    Ok(text)
}

/// Adds the lines of rows, one after another.
fn add_rows(alloc: Global, text: &mut Vec<u8>, rows: &[Row]) -> Result<(), AllocError>
    ensures { OnOk result (text.new.items ≡ text.old.items ++ row_lines rows.now) }
{
    for row in rows {
        add_row(alloc, text, row)?;
    }
    Ok(())
}

/// Adds the line of a row.
fn add_row(alloc: Global, text: &mut Vec<u8>, row: &Row) -> Result<(), AllocError>
    ensures { OnOk result (text.new.items ≡ text.old.items ++ row_line row.now) }
{
    let id = hex::encode(alloc, row.id().0.as_slice())?;
    text.extend_from_slice(id.as_bytes())?;
    text.push(b' ')?;
    let process = printed_row(alloc, row)?;
    text.extend_from_slice(process.as_slice())?;
    text.push(b'\n')?;
    Ok(())
}

/// The printed text of a row as a process.
fn printed_row(alloc: Global, row: &Row) -> Result<Vec<u8>, AllocError>
    ensures { IfOk result (λ text. text.items ≡ printed_text (only row.now.part)) }
{
    let _op = row.op();
    let process = row_term(alloc, row)?;
    print_term(alloc, &process)
}
