// The texts of ground values.
ghost use Rattle.std.specs.Prelude.{◌≡◌, ◌++◌, OnOk};
ghost use Rattle.calculus.specs.Form.{part};
ghost use Rattle.rho_term.specs.Parts.{ground_tree};
ghost use Rattle.printed_leaves.specs.Texts.{text_of};

use crate::{bool_word, put, put_hex, put_int, put_str, put_uri};
use calculus::Ground;
use std::alloc::AllocError;

// A ground value.
pub(crate) fn put_ground(out: &mut Vec<u8>, value: &Ground) -> Result<(), AllocError>
    ensures { OnOk result (out.new.items ≡ out.old.items ++ text_of part (ground_tree value.now) 0 0) }
{
    match value {
        Ground::Bool(b) => put(out, bool_word(*b)),
        Ground::Int(z) => put_int(out, *z),
        Ground::Str(s) => put_str(out, s.as_bytes()),
        Ground::Uri(s) => put_uri(out, s.as_bytes()),
        Ground::Bytes(v) => {
            put(out, b"#")?;
            put_hex(out, v.as_slice())
        }
    }
}
