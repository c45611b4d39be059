// Reading of codes.
ghost use Rattle.std.specs.Prelude.{◌≡◌, ◌++◌, ◌≤◌, ◌<◌, ◌^◌, ◌⊎◌, length, IfOk, IfErr, true, ℕ};
ghost use Rattle.std.specs.Result.{IsErrAnd};
ghost use Rattle.calculus.specs.Code.{code};
ghost use Rattle.calculus.specs.Form.{IsClosed, name_pat, term, row_of};
ghost use Rattle.calculus.specs.Shape.{many};
ghost use Rattle.calculus.specs.Size.{height};
ghost use Rattle.calculus.specs.Tree.{Tree, row};
ghost use Rattle.calculus.specs.Variables.{bound};
ghost use Rattle.code_faults.specs.Scopes.{scope_of, senses_of};
ghost use Rattle.code_faults.specs.Reading.{Reads};
ghost use Rattle.code_faults.specs.Beginning.{HasPlace, Goes, Begun, BegunRow};
ghost use Rattle.code_faults.specs.Refusing.{Refuses, RefusesRow};
ghost use Rattle.code_faults.specs.declared.fault.CodeFault.TheVariants.{Short, NotCanonical, TooDeep, NoMemory};
ghost use Rattle.code_faults.specs.Readable.{IsReadable, IsCutCode, at_end, IsBegun, IsBegunTo, IsCodeUpTo};
ghost use Rattle.code_faults.specs.Blaming.{Wrong, InTree, InRow, IsWrongAt, IsDeepAt, IsNamelessAt};

use crate::{patterns, terms};
use code_faults::{CodeFault, ReadFault, Sense};
use code_fields::Reader;
use rho_term::{Term, TermPat};
use std::alloc::Global;

/// The closed process, of height at most 400, whose code is exactly these bytes.
///
/// Each code of fewer than 2^32 bytes is read, and each proper prefix of one is `Short`, with its length.
/// `Short` tells of nothing else than proper prefixes of codes of such processes, of any length.
///
/// `NotCanonical` and `TooDeep` tell of other bytes, with a place. Up to it the bytes are a prefix of the code
/// of such a process; but a method's name of no bytes is blamed behind its length, four zeros, as other names
/// are, though no code has that length. Below 2^32 the place is exact: it is told of the codes of all closed
/// processes, of any height, that agree with the bytes before it. At `NotCanonical` a tag, a flag, a number
/// or a text begins there that the bytes are not, however they go on, or a part, a set's member or a map's
/// pair, and the bytes fall below the one before it, or that code ends there; of what falls below, the
/// outermost is blamed. At `TooDeep` a part begins there, under 400 forms, and the bytes go on with the tag
/// of one that is no leaf; that goes before other causes at one place. Want of memory alone is free.
pub fn decode_term(alloc: Global, bytes: &[u8]) -> Result<Term, CodeFault>
    ensures code { IfOk result (λ t. code t ≡ bytes.now) }
    ensures closed { IfOk result (λ t. IsClosed t) }
    ensures height { IfOk result (λ t. height t ≤ 400) }
    ensures short { (at : ℕ) → result ≡ Err (Short at) → at ≡ length bytes.now }
    ensures all { (t : Tree) → IsReadable t → code t ≡ bytes.now → IfErr result (λ e. e ≡ NoMemory) }
    ensures wrong { (at : ℕ) → at < 2 ^ 32 → result ≡ Err (NotCanonical at) → IsWrongAt at bytes.now ⊎ IsNamelessAt at bytes.now }
    ensures deep { (at : ℕ) → at < 2 ^ 32 → result ≡ Err (TooDeep at) → IsDeepAt at bytes.now }
    ensures begun { (at : ℕ) → result ≡ Err (Short at) → IsBegun bytes.now }
    ensures goes { (at : ℕ) → (result ≡ Err (NotCanonical at)) ⊎ (result ≡ Err (TooDeep at)) → IsBegunTo bytes.now at }
    ensures under { (at : ℕ) → result ≡ Err (TooDeep at) → IsCodeUpTo bytes.now at }
    ensures cut { IsCutCode bytes.now → IsErrAnd result (λ e. (e ≡ Short (length bytes.now)) ⊎ (e ≡ NoMemory)) }
{
    let mut reader = Reader {
        alloc,
        input: bytes,
        whole: bytes.len(),
    };
    let scope = Vec::new(alloc);
    let term = match read_term(&mut reader, &scope, 400) {
        Ok(term) => term,
        Err(fault) => return Err(at_end(fault, bytes.len())),
    };
    if !reader.input.is_empty() {
        let at = bytes.len().saturating_sub(reader.place());
        return Err(CodeFault::NotCanonical { at });
    }
    Ok(term)
}

// A fault in so many bytes: where they end early, that is told of their length, and a place is told from
// their beginning. A method's name of no bytes is blamed behind its length.
fn at_end(fault: ReadFault, len: usize) -> CodeFault
    ensures { result ≡ at_end fault len }
{
    match fault {
        ReadFault::Short { .. } => CodeFault::Short { at: len },
        ReadFault::NotCanonical { at } => CodeFault::NotCanonical {
            at: len.saturating_sub(at),
        },
        ReadFault::TooDeep { at } => CodeFault::TooDeep {
            at: len.saturating_sub(at),
        },
        ReadFault::Unnamed { at } => CodeFault::NotCanonical {
            at: len.saturating_sub(at.saturating_sub(4)),
        },
        ReadFault::NoMemory => CodeFault::NoMemory,
    }
}

/// A process.
pub fn read_term<'a>(
    reader: &mut Reader<'a>,
    scope: &Vec<Sense>,
    room: u32,
) -> Result<Term, ReadFault>
    ensures reads { IfOk result (λ t. Reads term (scope_of scope.now.items) room t reader.old.input.now reader.new.input.now) }
    ensures wrong { IfErr result (λ e. Wrong (InTree true term (scope_of scope.now.items) room) e reader.old.input.now) }
    ensures refuses { IfErr result (λ e. Refuses true term (scope_of scope.now.items) room e reader.old.input.now) }
    ensures begun { IfErr result (λ e. HasPlace e → Goes e (Begun true term (scope_of scope.now.items) room reader.old.input.now)) }
{
    terms::read_term(reader, scope, room)
}

/// At least so many processes.
pub fn read_terms(
    reader: &mut Reader<'_>,
    least: u32,
    scope: &Vec<Sense>,
    room: u32,
) -> Result<Vec<Term>, ReadFault>
    ensures reads { IfOk result (λ ts. Reads (row_of term) (scope_of scope.now.items) room (many row ts.items)
        reader.old.input.now reader.new.input.now) }
    ensures least { IfOk result (λ ts. least ≤ length ts.items) }
    ensures wrong { IfErr result (λ e. Wrong (InRow true term (scope_of scope.now.items) room least 0xFFFFFFFF) e reader.old.input.now) }
    ensures refuses { IfErr result (λ e. RefusesRow true term (scope_of scope.now.items) room least 0xFFFFFFFF e reader.old.input.now) }
    ensures begun { IfErr result (λ e. HasPlace e → Goes e
        (BegunRow true term (scope_of scope.now.items) room least 0xFFFFFFFF reader.old.input.now)) }
{
    terms::read_terms(reader, least, scope, room)
}

/// Patterns of names. What they bind is added to `found`.
pub fn read_name_pats(
    reader: &mut Reader<'_>,
    scope: &Vec<Sense>,
    found: &mut Vec<Sense>,
    room: u32,
) -> Result<Vec<TermPat>, ReadFault>
    ensures reads { IfOk result (λ ts. Reads (row_of name_pat) (scope_of scope.now.items) room (many row ts.items)
        reader.old.input.now reader.new.input.now) }
    ensures bound { IfOk result (λ ts. senses_of found.new.items ≡ senses_of found.old.items ++ bound (many row ts.items)) }
    ensures wrong { IfErr result (λ e. Wrong (InRow true name_pat (scope_of scope.now.items) room 0 0xFFFFFFFF) e reader.old.input.now) }
    ensures refuses { IfErr result (λ e. RefusesRow true name_pat (scope_of scope.now.items) room 0 0xFFFFFFFF e reader.old.input.now) }
    ensures begun { IfErr result (λ e. HasPlace e → Goes e
        (BegunRow true name_pat (scope_of scope.now.items) room 0 0xFFFFFFFF reader.old.input.now)) }
{
    patterns::read_name_pats(reader, scope, found, room)
}
