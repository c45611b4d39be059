// The text of a state, as it is written.
ghost use Rattle.std.specs.Prelude.{◌≡◌, ◌++◌, false, IfOk};
ghost use Rattle.calculus.specs.Bytes.{be64};
ghost use Rattle.calculus.specs.Rows.{row_code as code_of_row};
ghost use Rattle.checkpoint.specs.Pages.{Written};
ghost use Rattle.checkpoint.specs.Texts.{head_with};

use calculus::Digest;
use space_row::{Row, row_code};
use std::alloc::{AllocError, Global};

// The version of a state's text, after its name.
const VERSION: u8 = 0x01;

/// What is written of a text. Once memory was wanting, it is of no use.
#[derive(Drop)]
pub(crate) struct Page {
    bytes: Vec<u8>,
    failed: bool,
}

impl Page {
    /// What stands before the codes in the text of a state with this root and so many rows.
    pub(crate) fn headed(alloc: Global, root: &Digest, number: usize) -> Page
        ensures { result.failed ≡ false → result.bytes.items ≡ head_with root.now.0 number }
    {
        let mut page = Page {
            bytes: Vec::new(alloc),
            failed: false,
        };
        page.add(b"RHOSTATE");
        page.add(&[VERSION]);
        page.add(&root.0);
        page.add(&eight_bytes(number as u64));
        page
    }

    /// Adds these bytes.
    pub(crate) fn add(&mut self, bytes: &[u8])
        ensures { Written self.old self.new bytes.now }
    {
        match self.bytes.extend_from_slice(bytes) {
            Ok(()) => {}
            Err(_) => self.failed = true,
        }
    }

    /// Adds the code of a row.
    pub(crate) fn add_row(&mut self, alloc: Global, row: &Row)
        ensures { Written self.old self.new (code_of_row row.now) }
    {
        match row_code(alloc, row) {
            Ok(code) => self.add(code.as_slice()),
            Err(_) => self.failed = true,
        }
    }

    /// What was written, where memory was never wanting.
    pub(crate) fn made(self) -> Result<Vec<u8>, AllocError>
        ensures { IfOk result (λ v. (self.failed ≡ false) × (v.items ≡ self.bytes.items)) }
    {
        if self.failed {
            return Err(AllocError);
        }
        Ok(self.bytes)
    }
}

// The number as eight bytes, the high one first.
fn eight_bytes(n: u64) -> [u8; 8]
    ensures { result ≡ be64 n }
{
    n.to_be_bytes()
}
