// Fields of codes of one kind each.
ghost use Rattle.std.specs.Prelude.{◌≡◌, ◌++◌, ◌∷◌, ◌+ℤ◌, pos, nat_abs, ◌^◌, ℕ, List, IfOk, IfErr, IsTrue, ◌≤◌, ◌<◌, ◌⊎◌, length, string_bytes, map, ◌-◌, [], false};
ghost use Rattle.calculus.specs.Bytes.{be32, be64};
ghost use Rattle.calculus.specs.Code.{byte_of, code, text};
ghost use Rattle.calculus.specs.Meaning.{ground_label};
ghost use Rattle.calculus.specs.Tree.{none, rest};
ghost use Rattle.calculus.specs.Shape.{leaf};
ghost use Rattle.calculus.specs.Variables.{bound};
ghost use Rattle.rho_term.specs.Parts.{ground_tree};
ghost use Rattle.calculus.specs.Kinds.{rest_number, kind_number, rights_number, unary_op_number, binary_op_number, simple_number, origin_number};
ghost use Rattle.calculus.specs.Form.{HasVariable, IsDigest, IsBytes, IsPlain, Sort, Scope};
ghost use Rattle.code_faults.specs.Scopes.{scope_of, sense_of, senses_of};
ghost use Rattle.code_faults.specs.Texts.{HasForm, BeginsText};
ghost use Rattle.code_faults.specs.Beginning.{HasPlace, IsAt, Goes, BegunDigest, BegunOrigins, BegunGround, BegunBytes, BegunText, BegunIndex, BegunVariable, IsInScope};
ghost use Rattle.code_faults.specs.declared.fault.ReadFault.TheVariants.{Short, NotCanonical, Unnamed};
ghost use Rattle.code_faults.specs.Refusing.{Denies, RefusesByte, RefusesGround, RefusesOrigins, RefusesRest};
ghost use Rattle.code_faults.specs.Blaming.{TellsNone, Wrong, WrongVariable, InByte, InGround, InBytes, InText, InOrigins, InRest};

use crate::reader::{Reader, number_bounds};
use crate::text::{begins_text, is_text};
use calculus::{BinaryOp, Digest, Ground, Kind, Origin, Rights, Simple, TermRest, UnaryOp};
use code_faults::{ReadFault, Sense, TextKind};
use std::str;

impl<'a> Reader<'a> {
    /// A byte that is 1 for true and 0 for false.
    pub fn boolean(&mut self) -> Result<bool, ReadFault>
        ensures is { IfOk result (λ x. self.old.input.now ≡ byte_of x ∷ self.new.input.now) }
        ensures wrong { IfErr result (λ e. Wrong (InByte 1) e self.old.input.now) }
        ensures refuses { IfErr result (λ e. RefusesByte 1 e self.old.input.now) }
        ensures place { IfErr result (λ e. IsAt e self.old.input.now) }
    {
        let byte = self.flag(1)?;
        Ok(byte == 1)
    }

    /// The kind of a receive.
    pub fn kind(&mut self) -> Result<Kind, ReadFault>
        ensures is { IfOk result (λ x. self.old.input.now ≡ kind_number x ∷ self.new.input.now) }
        ensures wrong { IfErr result (λ e. Wrong (InByte 2) e self.old.input.now) }
        ensures refuses { IfErr result (λ e. RefusesByte 2 e self.old.input.now) }
        ensures place { IfErr result (λ e. IsAt e self.old.input.now) }
    {
        match self.flag(2)? {
            0 => Ok(Kind::Linear),
            1 => Ok(Kind::Persistent),
            _ => Ok(Kind::Peek),
        }
    }

    /// What a bundle allows.
    pub fn rights(&mut self) -> Result<Rights, ReadFault>
        ensures is { IfOk result (λ x. self.old.input.now ≡ rights_number x ∷ self.new.input.now) }
        ensures wrong { IfErr result (λ e. Wrong (InByte 3) e self.old.input.now) }
        ensures refuses { IfErr result (λ e. RefusesByte 3 e self.old.input.now) }
        ensures place { IfErr result (λ e. IsAt e self.old.input.now) }
    {
        match self.flag(3)? {
            0 => Ok(Rights::Neither),
            1 => Ok(Rights::Write),
            2 => Ok(Rights::Read),
            _ => Ok(Rights::Both),
        }
    }

    /// An operator of one operand.
    pub fn unary_op(&mut self) -> Result<UnaryOp, ReadFault>
        ensures is { IfOk result (λ x. self.old.input.now ≡ unary_op_number x ∷ self.new.input.now) }
        ensures wrong { IfErr result (λ e. Wrong (InByte 1) e self.old.input.now) }
        ensures refuses { IfErr result (λ e. RefusesByte 1 e self.old.input.now) }
        ensures place { IfErr result (λ e. IsAt e self.old.input.now) }
    {
        match self.flag(1)? {
            0 => Ok(UnaryOp::Not),
            _ => Ok(UnaryOp::Neg),
        }
    }

    /// An operator of two operands.
    pub fn binary_op(&mut self) -> Result<BinaryOp, ReadFault>
        ensures is { IfOk result (λ x. self.old.input.now ≡ binary_op_number x ∷ self.new.input.now) }
        ensures wrong { IfErr result (λ e. Wrong (InByte 14) e self.old.input.now) }
        ensures refuses { IfErr result (λ e. RefusesByte 14 e self.old.input.now) }
        ensures place { IfErr result (λ e. IsAt e self.old.input.now) }
    {
        match self.flag(14)? {
            0 => Ok(BinaryOp::Or),
            1 => Ok(BinaryOp::And),
            2 => Ok(BinaryOp::Eq),
            3 => Ok(BinaryOp::Ne),
            4 => Ok(BinaryOp::Lt),
            5 => Ok(BinaryOp::Le),
            6 => Ok(BinaryOp::Gt),
            7 => Ok(BinaryOp::Ge),
            8 => Ok(BinaryOp::Add),
            9 => Ok(BinaryOp::Sub),
            10 => Ok(BinaryOp::Append),
            11 => Ok(BinaryOp::Minus),
            12 => Ok(BinaryOp::Mul),
            13 => Ok(BinaryOp::Div),
            _ => Ok(BinaryOp::Rem),
        }
    }

    /// A type that a pattern asks for.
    pub fn simple(&mut self) -> Result<Simple, ReadFault>
        ensures is { IfOk result (λ x. self.old.input.now ≡ simple_number x ∷ self.new.input.now) }
        ensures wrong { IfErr result (λ e. Wrong (InByte 4) e self.old.input.now) }
        ensures refuses { IfErr result (λ e. RefusesByte 4 e self.old.input.now) }
        ensures place { IfErr result (λ e. IsAt e self.old.input.now) }
    {
        match self.flag(4)? {
            0 => Ok(Simple::Bool),
            1 => Ok(Simple::Int),
            2 => Ok(Simple::Str),
            3 => Ok(Simple::Uri),
            _ => Ok(Simple::Bytes),
        }
    }

    // A remainder, which is a variable only where one may be bound.
    pub(crate) fn remainder(&mut self, binds: bool) -> Result<TermRest, ReadFault>
        ensures is { IfOk result (λ x. self.old.input.now ≡ rest_number x ∷ self.new.input.now) }
        ensures wrong { IfErr result (λ e. Wrong (InRest binds) e self.old.input.now) }
        ensures refuses { IfErr result (λ e. RefusesRest binds e self.old.input.now) }
        ensures place { IfErr result (λ e. IsAt e self.old.input.now) }
        ensures free { binds ≡ false → IfOk result (λ x. bound (leaf (rest x)) ≡ []) }
    {
        let at = self.place();
        match self.flag(2)? {
            0 => Ok(TermRest::No),
            1 => {
                if binds {
                    Ok(TermRest::Var)
                } else {
                    Err(ReadFault::NotCanonical { at })
                }
            }
            _ => Ok(TermRest::Wild),
        }
    }

    /// A remainder; where it is a variable, that is added to `found`.
    pub fn bound_remainder(
        &mut self,
        binds: bool,
        found: &mut Vec<Sense>,
    ) -> Result<TermRest, ReadFault>
        ensures is { IfOk result (λ x. self.old.input.now ≡ rest_number x ∷ self.new.input.now) }
        ensures bound { IfOk result (λ x. senses_of found.new.items ≡ senses_of found.old.items ++ bound (leaf (rest x))) }
        ensures wrong { IfErr result (λ e. Wrong (InRest binds) e self.old.input.now) }
        ensures refuses { IfErr result (λ e. RefusesRest binds e self.old.input.now) }
        ensures place { IfErr result (λ e. IsAt e self.old.input.now) }
        ensures free { binds ≡ false → IfOk result (λ x. bound (leaf (rest x)) ≡ []) }
    {
        let rest = self.remainder(binds)?;
        match rest {
            TermRest::No => Ok(TermRest::No),
            TermRest::Wild => Ok(TermRest::Wild),
            TermRest::Var => {
                found.push(Sense::Process)?;
                Ok(TermRest::Var)
            }
        }
    }

    fn origin(&mut self) -> Result<Origin, ReadFault>
        ensures is { IfOk result (λ x. self.old.input.now ≡ origin_number x ∷ self.new.input.now) }
        ensures wrong { IfErr result (λ e. Wrong (InByte 2) e self.old.input.now) }
        ensures refuses { IfErr result (λ e. RefusesByte 2 e self.old.input.now) }
        ensures place { IfErr result (λ e. IsAt e self.old.input.now) }
    {
        match self.flag(2)? {
            0 => Ok(Origin::Plain),
            1 => Ok(Origin::Stdout),
            _ => Ok(Origin::StdoutAck),
        }
    }
}

impl<'a> Reader<'a> {
    /// At least one origin.
    pub fn origins(&mut self) -> Result<Vec<Origin>, ReadFault>
        ensures is { IfOk result (λ v. self.old.input.now ≡ be32 (length v.items) ++ map origin_number v.items ++ self.new.input.now) }
        ensures some { IfOk result (λ v. 1 ≤ length v.items) }
        ensures wrong { IfErr result (λ e. Wrong InOrigins e self.old.input.now) }
        ensures refuses { IfErr result (λ e. RefusesOrigins e self.old.input.now) }
        ensures begun { IfErr result (λ e. HasPlace e → Goes e (BegunOrigins self.old.input.now)) }
    {
        let count = self.number(1, u32::MAX)?;
        let mut origins = Vec::new(self.alloc);
        for _i in 0..count {
            origins.push(self.origin()?)?;
        }
        Ok(origins)
    }

    /// The ground value that goes on so after its tag.
    pub fn ground(&mut self, tag: u8) -> Result<Ground, ReadFault>
        ensures is { IfOk result (λ g. tag ∷ self.old.input.now ≡ code (ground_tree g) ++ self.new.input.now) }
        ensures plain { IfOk result (λ g. (s : Sort) (v : Scope) → IsPlain s v (ground_label g) none) }
        ensures wrong { IfErr result (λ e. Wrong InGround e (tag ∷ self.old.input.now)) }
        ensures refuses { IfErr result (λ e. RefusesGround e (tag ∷ self.old.input.now)) }
        ensures begun { IfErr result (λ e. HasPlace e → Goes e (BegunGround (tag ∷ self.old.input.now))) }
    {
        match tag {
            0x10 => Ok(Ground::Bool(self.boolean()?)),
            0x11 => Ok(Ground::Int(self.int()?)),
            0x12 => Ok(Ground::Str(self.text(TextKind::Str)?)),
            0x13 => Ok(Ground::Uri(self.text(TextKind::Uri)?)),
            0x14 => Ok(Ground::Bytes(self.bytes()?)),
            _ => Err(ReadFault::NotCanonical {
                at: self.last_place(),
            }),
        }
    }

    /// A digest.
    pub fn digest(&mut self) -> Result<Digest, ReadFault>
        ensures is { IfOk result (λ d. self.old.input.now ≡ d.0 ++ self.new.input.now) }
        ensures digest { IfOk result (λ d. IsDigest d.0) }
        ensures tells { IfErr result (λ e. TellsNone e) }
        ensures refuses { IfErr result (λ e. (x : List ℕ) → length x ≡ 32 → Denies e self.old.input.now x) }
        ensures begun { IfErr result (λ e. HasPlace e → Goes e (BegunDigest self.old.input.now)) }
    {
        let taken = self.take(32)?;
        Ok(Digest(array_of(taken)))
    }

    pub(crate) fn int(&mut self) -> Result<i64, ReadFault>
        ensures is { IfOk result (λ z. self.old.input.now ≡ be64 (nat_abs (z +ℤ pos (2 ^ 63))) ++ self.new.input.now) }
        ensures tells { IfErr result (λ e. TellsNone e) }
        ensures refuses { IfErr result (λ e. (n : ℕ) → Denies e self.old.input.now (be64 n)) }
        ensures place { IfErr result (λ e. IsAt e []) }
        ensures ends { IfErr result (λ e. length self.old.input.now < 8) }
        ensures left { IfErr result (λ e. IsBytes self.old.input.now) }
    {
        let taken = self.take(8)?;
        Ok(from_least(number_of(taken)))
    }

    pub(crate) fn bytes(&mut self) -> Result<Vec<u8>, ReadFault>
        ensures is { IfOk result (λ v. self.old.input.now ≡ text v.items ++ self.new.input.now) }
        ensures bytes { IfOk result (λ v. IsBytes v.items) }
        ensures wrong { IfErr result (λ e. Wrong InBytes e self.old.input.now) }
        ensures refuses { IfErr result (λ e. (x : List ℕ) → length x < 2 ^ 32 → Denies e self.old.input.now (text x)) }
        ensures begun { IfErr result (λ e. HasPlace e → Goes e (BegunBytes self.old.input.now)) }
    {
        let len = self.number(0, u32::MAX)? as usize;
        let taken = self.take(len)?;
        Ok(Vec::from_slice(self.alloc, taken)?)
    }

    /// A text is blamed on the first byte after its length, but a name of no bytes on the length.
    pub fn text(&mut self, kind: TextKind) -> Result<String, ReadFault>
        ensures is { IfOk result (λ s. self.old.input.now ≡ text (string_bytes s) ++ self.new.input.now) }
        ensures form { IfOk result (λ s. HasForm kind (string_bytes s)) }
        ensures bytes { IfOk result (λ s. IsBytes (string_bytes s)) }
        ensures wrong { IfErr result (λ e. Wrong (InText kind) e self.old.input.now) }
        ensures refuses { IfErr result (λ e. (x : List ℕ) → HasForm kind x → length x < 2 ^ 32 → Denies e self.old.input.now (text x)) }
        ensures begun { IfErr result (λ e. HasPlace e → Goes e (BegunText kind self.old.input.now)) }
    {
        let length_at = self.place();
        let len = self.number(0, u32::MAX)? as usize;
        let at = self.place();
        if self.input.len() < len {
            return Err(cut_text(kind, self.input, len, at, self.whole));
        }
        let taken = self.take(len)?;
        if !is_text(kind, taken) {
            return Err(ill_formed(length_at, at, len));
        }
        match str::from_utf8(taken) {
            Ok(text) => Ok(String::from_str(self.alloc, text)?),
            Err(_) => Err(ReadFault::NotCanonical { at }),
        }
    }

    /// The index of a variable of this sense. Its tag, which stands before it, is blamed where none is in
    /// scope.
    pub fn variable(&mut self, scope: &Vec<Sense>, sense: Sense) -> Result<u32, ReadFault>
        ensures is { IfOk result (λ i. self.old.input.now ≡ be32 i ++ self.new.input.now) }
        ensures has { IfOk result (λ i. HasVariable (scope_of scope.now.items) i (sense_of sense)) }
        ensures wrong { IfErr result (λ e. WrongVariable (scope_of scope.now.items) (sense_of sense) e self.old.input.now) }
        ensures refuses { IfErr result (λ e. (i : ℕ) → i < 2 ^ 32 →
            HasVariable (scope_of scope.now.items) i (sense_of sense) → Denies e self.old.input.now (be32 i)) }
        ensures begun { (tag : ℕ) → IfErr result (λ e. HasPlace e →
            Goes e (BegunVariable (scope_of scope.now.items) (sense_of sense) tag self.old.input.now)) }
    {
        let (tag, place) = (self.last_place(), self.place());
        if self.input.len() < 4 {
            if begins_index(scope, sense, self.input) {
                return Err(ReadFault::Short { at: self.whole });
            }
            return Err(ReadFault::NotCanonical {
                at: blamed(scope, sense, tag, place),
            });
        }
        let index = self.number(0, u32::MAX)?;
        if has_variable(scope, index as usize, sense) {
            return Ok(index);
        }
        Err(ReadFault::NotCanonical {
            at: blamed(scope, sense, tag, place),
        })
    }
}

// The fault of a text of `len` bytes that ends early: where no more bytes make it a text, its first
// byte is blamed.
fn cut_text(kind: TextKind, bytes: &[u8], len: usize, at: usize, whole: usize) -> ReadFault
    requires { length bytes.now < len }
    ensures refuses { (x : List ℕ) → HasForm kind x → length x ≡ len → Denies result bytes.now x }
    ensures begun { (BeginsText kind bytes.now len × (result ≡ Short whole)) ⊎
        ((result ≡ NotCanonical at) × (BeginsText kind bytes.now len → ⊥)) }
{
    if begins_text(kind, bytes, len) {
        ReadFault::Short { at: whole }
    } else {
        ReadFault::NotCanonical { at }
    }
}

// The fault of a text of `len` bytes that has not the form of its kind.
fn ill_formed(length_at: usize, at: usize, len: usize) -> ReadFault
    ensures { ((len ≡ 0) × (result ≡ Unnamed length_at)) ⊎ ((0 < len) × (result ≡ NotCanonical at)) }
{
    if len == 0 {
        ReadFault::Unnamed { at: length_at }
    } else {
        ReadFault::NotCanonical { at }
    }
}

// What is blamed for a variable that is not in scope: its index, or its tag where the scope has none of
// its sense.
fn blamed(scope: &Vec<Sense>, sense: Sense, tag: usize, index: usize) -> usize
    ensures { ((result ≡ index) × IsInScope (scope_of scope.now.items) (sense_of sense)) ⊎
        ((result ≡ tag) × ((i : ℕ) → HasVariable (scope_of scope.now.items) i (sense_of sense) → ⊥)) }
{
    if has_sense(scope, sense) { index } else { tag }
}

// Whether a variable of this sense is in scope.
fn has_sense(scope: &Vec<Sense>, sense: Sense) -> bool
    ensures only { IsTrue result → IsInScope (scope_of scope.now.items) (sense_of sense) }
    ensures all { (i : ℕ) → HasVariable (scope_of scope.now.items) i (sense_of sense) → IsTrue result }
{
    for index in 0..scope.len() {
        if has_variable(scope, index, sense) {
            return true;
        }
    }
    false
}

fn array_of(bytes: &[u8]) -> [u8; 32]
    requires { length bytes.now ≡ 32 }
    ensures is { result ≡ bytes.now }
    ensures digest { IsDigest result }
{
    let mut array = [0; 32];
    array.copy_from_slice(bytes);
    array
}

// The number of these eight bytes.
fn number_of(bytes: &[u8]) -> u64
    requires { length bytes.now ≡ 8 }
    ensures { bytes.now ≡ be64 result }
{
    let mut array = [0; 8];
    array.copy_from_slice(bytes);
    u64::from_be_bytes(array)
}

// The number that stands so far above the least `i64`.
fn from_least(n: u64) -> i64
    ensures { n ≡ nat_abs (result +ℤ pos (2 ^ 63)) }
{
    (n as i128 - 0x8000_0000_0000_0000) as i64
}

fn has_variable(scope: &Vec<Sense>, index: usize, sense: Sense) -> bool
    ensures only { IsTrue result → HasVariable (scope_of scope.now.items) index (sense_of sense) }
    ensures all { HasVariable (scope_of scope.now.items) index (sense_of sense) → IsTrue result }
{
    index < scope.len() && scope[scope.len() - 1 - index] == sense
}

// Whether these bytes begin the index of a variable of this sense.
fn begins_index(scope: &Vec<Sense>, sense: Sense, bytes: &[u8]) -> bool
    ensures all { (i : ℕ) (x y : List ℕ) → i < 2 ^ 32 → HasVariable (scope_of scope.now.items) i (sense_of sense) →
        bytes.now ++ x ≡ be32 i ++ y → IsTrue result }
    ensures only { IsTrue result → length bytes.now < 4 → BegunIndex (scope_of scope.now.items) (sense_of sense) bytes.now [] }
{
    let (low, high) = number_bounds(bytes);
    let end = scope.len().min(high as usize + 1);
    for index in low as usize..end {
        if has_variable(scope, index, sense) {
            return true;
        }
    }
    false
}
