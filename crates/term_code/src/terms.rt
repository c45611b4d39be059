// Reading of processes: one function for each sort of constituent.
ghost use Rattle.std.specs.Prelude.{◌≡◌, ◌∷◌, ◌+◌, ◌≤◌, ◌<◌, map, true, false};
ghost use Rattle.calculus.specs.Form.{term, part, a_bind, a_case, pair_of};
ghost use Rattle.rho_term.specs.Parts.{part_tree, pair_tree, bind_tree, case_tree};
ghost use Rattle.code_faults.specs.Scopes.{scope_of, senses_of};
ghost use Rattle.code_faults.specs.Reading.{Reads, ReadsBag};
ghost use Rattle.code_faults.specs.Tags.{is_form_tag};
ghost use Rattle.code_parts.specs.Outcomes.{Comes, Fails, FailsBag, FailsRow, ReadsPart, ReadsPats, ReadsRow};

use crate::patterns::{read_name_pats, read_pat};
use code_faults::{ReadFault, Sense};
use code_fields::reader::is_form;
use code_fields::{Reader, check_order};
use code_parts::heads::{Head, read_head};
use code_parts::leaves::leaf_part;
use code_parts::lists::{keep, keep_in_order, paired, with_rest};
use code_parts::scopes::{copy_of, new_head, receive_head};
use code_parts::tags::part_tag;
use rho_term::{Part, Term, TermBind, TermCase};

// A process.
#[cycle(read)]
pub(crate) fn read_term<'a>(
    reader: &mut Reader<'a>,
    scope: &Vec<Sense>,
    room: u32,
) -> Result<Term, ReadFault>
    ensures { Comes result (λ t. Reads term (scope_of scope.now.items) room t reader.old.input.now reader.new.input.now)
        (Fails true term (scope_of scope.now.items) room reader.old.input.now) }
{
    let count = reader.number(0, u32::MAX)?;
    let mut parts = reader.list(count);
    let mut last: &'a [u8] = &[];
    for _i in 0..count {
        let start = reader.input;
        let tag = part_tag(reader, last, room)?;
        let part = read_part(reader, tag, scope, room);
        last = keep_in_order(reader, start, last, &mut parts, part)?;
    }
    Ok(Term::from_sorted(parts))
}

// The part that goes on so after its tag, which is that of no form where none has room.
#[cycle(read)]
pub(crate) fn read_part(
    reader: &mut Reader<'_>,
    tag: u8,
    scope: &Vec<Sense>,
    room: u32,
) -> Result<Part, ReadFault>
    requires { room ≡ 0 → is_form_tag tag ≡ false }
    ensures { Comes result (λ p. ReadsPart part (scope_of scope.now.items) room (tag ∷ reader.old.input.now)
        reader.new.input.now (part_tree p)) (Fails true part (scope_of scope.now.items) room
        (tag ∷ reader.old.input.now)) }
{
    if is_form(tag) {
        read_form(reader, tag, scope, room - 1)
    } else {
        leaf_part(reader, tag, scope)
    }
}

#[cycle(read)]
fn read_form(
    reader: &mut Reader<'_>,
    tag: u8,
    scope: &Vec<Sense>,
    room: u32,
) -> Result<Part, ReadFault>
    requires { is_form_tag tag ≡ true }
    ensures { Comes result (λ p. ReadsPart part (scope_of scope.now.items) (room + 1) (tag ∷ reader.old.input.now)
        reader.new.input.now (part_tree p)) (Fails true part (scope_of scope.now.items) (room + 1)
        (tag ∷ reader.old.input.now)) }
{
    match tag {
        0x20 => Ok(Part::List(read_terms(reader, 0, scope, room)?)),
        0x21 => Ok(Part::Tuple(read_terms(reader, 1, scope, room)?)),
        0x22 => Ok(Part::Set(read_members(reader, scope, room)?)),
        0x23 => Ok(Part::Map(read_pairs(reader, scope, room)?)),
        0x31..=0x33 => read_binder(reader, tag, scope, room),
        _ => read_processes(reader, tag, scope, room),
    }
}

// A receive, a `new` or a `match`.
#[cycle(read)]
fn read_binder(
    reader: &mut Reader<'_>,
    tag: u8,
    scope: &Vec<Sense>,
    room: u32,
) -> Result<Part, ReadFault>
    requires low { 0x31 ≤ tag }
    requires high { tag ≤ 0x33 }
    ensures { Comes result (λ p. ReadsPart part (scope_of scope.now.items) (room + 1) (tag ∷ reader.old.input.now)
        reader.new.input.now (part_tree p)) (Fails true part (scope_of scope.now.items) (room + 1)
        (tag ∷ reader.old.input.now)) }
{
    match tag {
        0x31 => {
            let head = receive_head(reader, scope)?;
            let kind = head.0;
            let mut inner = head.1;
            let binds = read_binds(reader, scope, &mut inner, room)?;
            let body = read_term(reader, &inner, room)?;
            Ok(Part::Receive { kind, binds, body })
        }
        0x32 => {
            let head = new_head(reader, scope)?;
            let body = read_term(reader, &head.1, room)?;
            Ok(Part::New {
                names: head.0,
                body,
            })
        }
        _ => {
            let target = read_term(reader, scope, room)?;
            let cases = read_cases(reader, scope, room)?;
            Ok(Part::Match { target, cases })
        }
    }
}

// A form of processes alone: a send, a bundle, an operator or a method.
#[cycle(read)]
fn read_processes(
    reader: &mut Reader<'_>,
    tag: u8,
    scope: &Vec<Sense>,
    room: u32,
) -> Result<Part, ReadFault>
    requires { (tag ≡ 0x30 → ⊥) → (tag ≡ 0x34 → ⊥) → (tag ≡ 0x40 → ⊥) → (tag ≡ 0x41 → ⊥) → tag ≡ 0x42 }
    ensures { Comes result (λ p. ReadsPart part (scope_of scope.now.items) (room + 1) (tag ∷ reader.old.input.now)
        reader.new.input.now (part_tree p)) (Fails true part (scope_of scope.now.items) (room + 1)
        (tag ∷ reader.old.input.now)) }
{
    let head = read_head(reader, tag)?;
    match head {
        Head::Single(single) => {
            let body = read_term(reader, scope, room)?;
            Ok(single.over(body))
        }
        Head::Binary(op) => {
            let left = read_term(reader, scope, room)?;
            let right = read_term(reader, scope, room)?;
            Ok(Part::Binary { op, left, right })
        }
        Head::Listed(listed) => {
            let first = read_term(reader, scope, room)?;
            let args = read_terms(reader, 0, scope, room)?;
            Ok(listed.over(first, args))
        }
    }
}

// At least so many processes.
#[cycle(read)]
pub(crate) fn read_terms(
    reader: &mut Reader<'_>,
    least: u32,
    scope: &Vec<Sense>,
    room: u32,
) -> Result<Vec<Term>, ReadFault>
    ensures { Comes result (λ ts. ReadsRow term (scope_of scope.now.items) room least 0xFFFFFFFF reader.old.input.now
        reader.new.input.now ts.items) (FailsRow true term (scope_of scope.now.items) room least 0xFFFFFFFF
        reader.old.input.now) }
{
    let count = reader.number(least, u32::MAX)?;
    let mut terms = reader.list(count);
    for _i in 0..count {
        let term = read_term(reader, scope, room);
        keep(&mut terms, term)?;
    }
    Ok(terms)
}

// Processes whose codes ascend.
#[cycle(read)]
fn read_members<'a>(
    reader: &mut Reader<'a>,
    scope: &Vec<Sense>,
    room: u32,
) -> Result<Vec<Term>, ReadFault>
    ensures { Comes result (λ ts. ReadsBag term (scope_of scope.now.items) room ts.items reader.old.input.now
        reader.new.input.now) (FailsBag term (scope_of scope.now.items) room reader.old.input.now) }
{
    let count = reader.number(0, u32::MAX)?;
    let mut terms = reader.list(count);
    let mut last: &'a [u8] = &[];
    for _i in 0..count {
        let start = reader.input;
        check_order(last, start)?;
        let term = read_term(reader, scope, room);
        last = keep_in_order(reader, start, last, &mut terms, term)?;
    }
    Ok(terms)
}

// Pairs whose codes ascend.
#[cycle(read)]
fn read_pairs<'a>(
    reader: &mut Reader<'a>,
    scope: &Vec<Sense>,
    room: u32,
) -> Result<Vec<(Term, Term)>, ReadFault>
    ensures { Comes result (λ ps. ReadsBag (pair_of term) (scope_of scope.now.items) room (map pair_tree ps.items)
        reader.old.input.now reader.new.input.now) (FailsBag (pair_of term) (scope_of scope.now.items) room
        reader.old.input.now) }
{
    let count = reader.number(0, u32::MAX)?;
    let mut pairs = reader.list(count);
    let mut last: &'a [u8] = &[];
    for _i in 0..count {
        let start = reader.input;
        check_order(last, start)?;
        let key = read_term(reader, scope, room)?;
        let value = read_term(reader, scope, room);
        let pair = paired(key, value);
        last = keep_in_order(reader, start, last, &mut pairs, pair)?;
    }
    Ok(pairs)
}

// 1 to 16 binds. What their patterns bind is added to `found`.
#[cycle(read)]
fn read_binds(
    reader: &mut Reader<'_>,
    scope: &Vec<Sense>,
    found: &mut Vec<Sense>,
    room: u32,
) -> Result<Vec<TermBind>, ReadFault>
    ensures { Comes result (λ bs. ReadsPats true a_bind (scope_of scope.now.items) room 1 16 (senses_of found.old.items)
        (senses_of found.new.items) reader.old.input.now reader.new.input.now (map bind_tree bs.items))
        (FailsRow true a_bind (scope_of scope.now.items) room 1 16 reader.old.input.now) }
{
    let count = reader.number(1, 16)?;
    let mut binds = reader.list(count);
    for _i in 0..count {
        let channel = read_term(reader, scope, room)?;
        let pats = read_name_pats(reader, scope, found, room);
        let both = with_rest(reader, true, found, pats)?;
        binds.push(TermBind {
            pats: both.0,
            rest: both.1,
            channel,
        })?;
    }
    Ok(binds)
}

// At least one case.
#[cycle(read)]
fn read_cases(
    reader: &mut Reader<'_>,
    scope: &Vec<Sense>,
    room: u32,
) -> Result<Vec<TermCase>, ReadFault>
    ensures { Comes result (λ cs. ReadsRow a_case (scope_of scope.now.items) room 1 0xFFFFFFFF reader.old.input.now
        reader.new.input.now (map case_tree cs.items)) (FailsRow true a_case (scope_of scope.now.items) room 1
        0xFFFFFFFF reader.old.input.now) }
{
    let count = reader.number(1, u32::MAX)?;
    let mut cases = reader.list(count);
    for _i in 0..count {
        let mut inner = copy_of(reader.alloc, scope)?;
        let pat = read_pat(reader, true, scope, &mut inner, room)?;
        let body = read_term(reader, &inner, room)?;
        cases.push(TermCase { pat, body })?;
    }
    Ok(cases)
}
