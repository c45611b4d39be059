// The bytes of a code, one after another.
ghost use Rattle.std.specs.Prelude.{◌≡◌, false, ◌++◌, ◌∷◌, [], ◌^◌, ◌+ℤ◌, pos, nat_abs, length, map, IfOk};
ghost use Rattle.calculus.specs.Bytes.{be32, be64};
ghost use Rattle.calculus.specs.Code.{code, text, byte_of};
ghost use Rattle.calculus.specs.Kinds.{rest_number, kind_number, rights_number, unary_op_number, binary_op_number, simple_number, origin_number};
ghost use Rattle.rho_term.specs.Parts.{ground_tree};
ghost use Rattle.term_encoder.specs.Writing.{Writes};

use calculus::{BinaryOp, Ground, Kind, Origin, Rights, Simple, TermRest, UnaryOp};
use std::alloc::{AllocError, Global};

/// What writes codes. Once memory was wanting, it writes no more, and has no code.
#[derive(Drop)]
pub(crate) struct Encoder {
    bytes: Vec<u8>,
    failed: bool,
}

impl Encoder {
    /// One that wrote nothing yet.
    pub(crate) fn new(alloc: Global) -> Encoder
        ensures { result.bytes.items ≡ [] }
    {
        Encoder {
            bytes: Vec::new(alloc),
            failed: false,
        }
    }

    /// All that was written. Want of memory is the one error.
    pub(crate) fn finish(self) -> Result<Vec<u8>, AllocError>
        ensures { IfOk result (λ v. (self.failed ≡ false) × (v ≡ self.bytes)) }
    {
        if self.failed {
            return Err(AllocError);
        }
        Ok(self.bytes)
    }

    /// A byte.
    pub(crate) fn byte(&mut self, byte: u8)
        ensures { Writes self.old self.new (byte ∷ []) }
    {
        if self.failed {
            return;
        }
        self.failed = self.bytes.push(byte).is_err();
    }

    // Two bytes.
    fn two(&mut self, first: u8, second: u8)
        ensures { Writes self.old self.new (first ∷ second ∷ []) }
    {
        self.byte(first);
        self.byte(second);
    }

    /// These bytes.
    pub(crate) fn slice(&mut self, bytes: &[u8])
        ensures { Writes self.old self.new bytes.now }
    {
        if self.failed {
            return;
        }
        self.failed = self.bytes.extend_from_slice(bytes).is_err();
    }

    /// A number modulo 2^32, as four bytes, the high one first.
    pub(crate) fn be32(&mut self, n: usize)
        ensures { Writes self.old self.new (be32 n) }
    {
        let bytes = ((n % 0x1_0000_0000) as u32).to_be_bytes();
        self.slice(&bytes);
    }

    /// A form's byte and a number.
    pub(crate) fn number(&mut self, form: u8, n: usize)
        ensures { Writes self.old self.new (form ∷ be32 n) }
    {
        self.byte(form);
        self.be32(n);
    }

    // A form's byte, and bytes after their number.
    fn counted(&mut self, form: u8, bytes: &[u8])
        ensures { Writes self.old self.new (form ∷ text bytes.now) }
    {
        self.number(form, bytes.len());
        self.slice(bytes);
    }

    /// A form's byte and a text.
    pub(crate) fn text(&mut self, form: u8, chars: &str)
        ensures { Writes self.old self.new (form ∷ text chars.now) }
    {
        self.counted(form, chars.as_bytes());
    }

    /// A form's byte and a flag.
    pub(crate) fn flag(&mut self, form: u8, flag: bool)
        ensures { Writes self.old self.new (form ∷ byte_of flag ∷ []) }
    {
        self.two(form, if flag { 1 } else { 0 });
    }

    /// A flag alone.
    pub(crate) fn bare_flag(&mut self, flag: bool)
        ensures { Writes self.old self.new (byte_of flag ∷ []) }
    {
        self.byte(if flag { 1 } else { 0 });
    }

    /// A form's byte and a kind of receive.
    pub(crate) fn kind(&mut self, form: u8, kind: Kind)
        ensures { Writes self.old self.new (form ∷ kind_number kind ∷ []) }
    {
        self.two(form, kind as u8);
    }

    /// A kind of receive alone.
    pub(crate) fn bare_kind(&mut self, kind: Kind)
        ensures { Writes self.old self.new (kind_number kind ∷ []) }
    {
        self.byte(kind as u8);
    }

    /// A form's byte and a bundle's rights.
    pub(crate) fn rights(&mut self, form: u8, rights: Rights)
        ensures { Writes self.old self.new (form ∷ rights_number rights ∷ []) }
    {
        self.two(form, rights as u8);
    }

    /// A form's byte and an operator of one operand.
    pub(crate) fn unary_op(&mut self, form: u8, op: UnaryOp)
        ensures { Writes self.old self.new (form ∷ unary_op_number op ∷ []) }
    {
        self.two(form, op as u8);
    }

    /// A form's byte and an operator of two operands.
    pub(crate) fn binary_op(&mut self, form: u8, op: BinaryOp)
        ensures { Writes self.old self.new (form ∷ binary_op_number op ∷ []) }
    {
        self.two(form, op as u8);
    }

    /// A form's byte and a simple type.
    pub(crate) fn simple(&mut self, form: u8, simple: Simple)
        ensures { Writes self.old self.new (form ∷ simple_number simple ∷ []) }
    {
        self.two(form, simple as u8);
    }

    /// A remainder.
    pub(crate) fn rest(&mut self, rest: TermRest)
        ensures { Writes self.old self.new (rest_number rest ∷ []) }
    {
        self.byte(rest as u8);
    }

    // The origin of a new name.
    fn origin(&mut self, origin: Origin)
        ensures { Writes self.old self.new (origin_number origin ∷ []) }
    {
        self.byte(origin as u8);
    }

    /// A form's byte, and the origins of new names after their number.
    pub(crate) fn origins(&mut self, form: u8, names: &Vec<Origin>)
        ensures { Writes self.old self.new (form ∷ (be32 (length names.now.items) ++ map origin_number names.now.items)) }
    {
        self.number(form, names.len());
        for name in names {
            self.origin(*name);
        }
    }

    // A form's byte and a whole number.
    fn int(&mut self, form: u8, z: i64)
        ensures { Writes self.old self.new (form ∷ be64 (nat_abs (z +ℤ pos (2 ^ 63)))) }
    {
        self.byte(form);
        let bytes = from_least(z).to_be_bytes();
        self.slice(&bytes);
    }

    /// A ground value.
    pub(crate) fn ground(&mut self, value: &Ground)
        ensures { Writes self.old self.new (code (ground_tree value.now)) }
    {
        match value {
            Ground::Bool(flag) => self.flag(0x10, *flag),
            Ground::Int(z) => self.int(0x11, *z),
            Ground::Str(chars) => self.text(0x12, chars.as_str()),
            Ground::Uri(chars) => self.text(0x13, chars.as_str()),
            Ground::Bytes(bytes) => self.counted(0x14, bytes.as_slice()),
        }
    }
}

// The number from the least `i64` on.
fn from_least(z: i64) -> u64
    ensures { result ≡ nat_abs (z +ℤ pos (2 ^ 63)) }
{
    (z as i128 + 0x8000_0000_0000_0000) as u64
}
