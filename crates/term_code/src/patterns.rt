// Reading of patterns in codes.
ghost use Rattle.std.specs.Prelude.{◌≡◌, ◌∷◌, ◌≤◌, ◌+◌, ◌<◌, [], map, true, false};
ghost use Rattle.calculus.specs.Form.{pat, name_pat, pat_part, pair_of};
ghost use Rattle.rho_term.specs.Parts.{pat_part_tree, pair_tree};
ghost use Rattle.code_faults.specs.Scopes.{scope_of, senses_of};
ghost use Rattle.code_faults.specs.Tags.{is_pat_form_tag};
ghost use Rattle.code_parts.specs.Outcomes.{Comes, Fails, FailsRow, ReadsPat, ReadsPatPart, ReadsPats};

use crate::terms::{read_part, read_term};
use code_faults::{ReadFault, Sense};
use code_fields::Reader;
use code_parts::leaves::{after_name_variable, leaf_pat, name_variable};
use code_parts::lists::{keep, paired, with_rest};
use code_parts::tags::{is_pat_form, pat_tag};
use rho_term::{PatPart, TermPat};

// A pattern of processes. Where `binds` is false it may bind no variable; what it binds is added
// to `found`.
#[cycle(read)]
pub(crate) fn read_pat(
    reader: &mut Reader<'_>,
    binds: bool,
    scope: &Vec<Sense>,
    found: &mut Vec<Sense>,
    room: u32,
) -> Result<TermPat, ReadFault>
    ensures { Comes result (λ t. ReadsPat binds pat (scope_of scope.now.items) room (senses_of found.old.items)
        (senses_of found.new.items) reader.old.input.now reader.new.input.now t)
        (Fails binds pat (scope_of scope.now.items) room reader.old.input.now) }
{
    let count = reader.number(0, 9)?;
    let mut parts = reader.list(count);
    let mut wide: u32 = 0;
    for i in 0..count {
        let next = pat_tag(reader, room, wide, i)?;
        wide = next.1;
        let part = read_pat_part(reader, next.0, binds, scope, found, room);
        keep(&mut parts, part)?;
    }
    Ok(TermPat::new(parts))
}

// A pattern of names: that of the process that it quotes, or a name variable alone.
#[cycle(read)]
pub(crate) fn read_name_pat(
    reader: &mut Reader<'_>,
    binds: bool,
    scope: &Vec<Sense>,
    found: &mut Vec<Sense>,
    room: u32,
) -> Result<TermPat, ReadFault>
    ensures { Comes result (λ t. ReadsPat binds name_pat (scope_of scope.now.items) room (senses_of found.old.items)
        (senses_of found.new.items) reader.old.input.now reader.new.input.now t)
        (Fails binds name_pat (scope_of scope.now.items) room reader.old.input.now) }
{
    match after_name_variable(binds, reader.input) {
        Some(others) => {
            let parts = name_variable(reader, others, found, PatPart::NameVar)?;
            Ok(TermPat::new(parts))
        }
        None => read_pat(reader, binds, scope, found, room),
    }
}

// The part of a pattern that goes on so after its tag, which is that of no form where none has room.
#[cycle(read)]
fn read_pat_part(
    reader: &mut Reader<'_>,
    tag: u8,
    binds: bool,
    scope: &Vec<Sense>,
    found: &mut Vec<Sense>,
    room: u32,
) -> Result<PatPart, ReadFault>
    requires { room ≡ 0 → is_pat_form_tag tag ≡ false }
    ensures { Comes result (λ p. ReadsPatPart binds pat_part (scope_of scope.now.items) room (senses_of found.old.items)
        (senses_of found.new.items) (tag ∷ reader.old.input.now) reader.new.input.now (pat_part_tree p))
        (Fails binds pat_part (scope_of scope.now.items) room (tag ∷ reader.old.input.now)) }
{
    match tag {
        0x31..=0x33 => {
            let outside = Vec::new(reader.alloc);
            Ok(PatPart::Closed(read_part(reader, tag, &outside, room)?))
        }
        _ => {
            if is_pat_form(tag) {
                read_pat_form(reader, tag, binds, scope, found, room - 1)
            } else {
                leaf_pat(reader, tag, binds, found)
            }
        }
    }
}

#[cycle(read)]
fn read_pat_form(
    reader: &mut Reader<'_>,
    tag: u8,
    binds: bool,
    scope: &Vec<Sense>,
    found: &mut Vec<Sense>,
    room: u32,
) -> Result<PatPart, ReadFault>
    requires form { is_pat_form_tag tag ≡ true }
    requires not_closed { (0x31 ≤ tag) → (tag ≤ 0x33) → ⊥ }
    ensures { Comes result (λ p. ReadsPatPart binds pat_part (scope_of scope.now.items) (room + 1)
        (senses_of found.old.items) (senses_of found.new.items) (tag ∷ reader.old.input.now) reader.new.input.now
        (pat_part_tree p)) (Fails binds pat_part (scope_of scope.now.items) (room + 1) (tag ∷ reader.old.input.now)) }
{
    let any = PatRow {
        least: 0,
        most: u32::MAX,
        binds,
    };
    match tag {
        0x20 => {
            let members = read_pats(reader, any, scope, found, room);
            let both = with_rest(reader, binds, found, members)?;
            Ok(PatPart::List(both.0, both.1))
        }
        0x21 => {
            let row = PatRow { least: 1, ..any };
            Ok(PatPart::Tuple(read_pats(reader, row, scope, found, room)?))
        }
        0x22 => {
            let row = PatRow { most: 8, ..any };
            let members = read_pats(reader, row, scope, found, room);
            let both = with_rest(reader, binds, found, members)?;
            Ok(PatPart::Set(both.0, both.1))
        }
        0x23 => {
            let pairs = read_pat_pairs(reader, binds, scope, found, room);
            let both = with_rest(reader, binds, found, pairs)?;
            Ok(PatPart::Map(both.0, both.1))
        }
        0x30 => {
            let persistent = reader.boolean()?;
            let channel = read_name_pat(reader, binds, scope, found, room)?;
            let args = read_pats(reader, any, scope, found, room)?;
            Ok(PatPart::Send {
                channel,
                args,
                persistent,
            })
        }
        0x34 => {
            let rights = reader.rights()?;
            let body = read_free_pat(reader, scope, room)?;
            Ok(PatPart::Bundle { rights, body })
        }
        _ => read_connective(reader, tag, binds, scope, found, room),
    }
}

// A process as it is, or patterns under a connective.
#[cycle(read)]
fn read_connective(
    reader: &mut Reader<'_>,
    tag: u8,
    binds: bool,
    scope: &Vec<Sense>,
    found: &mut Vec<Sense>,
    room: u32,
) -> Result<PatPart, ReadFault>
    requires form { is_pat_form_tag tag ≡ true }
    requires later { 0x34 < tag }
    ensures { Comes result (λ p. ReadsPatPart binds pat_part (scope_of scope.now.items) (room + 1)
        (senses_of found.old.items) (senses_of found.new.items) (tag ∷ reader.old.input.now) reader.new.input.now
        (pat_part_tree p)) (Fails binds pat_part (scope_of scope.now.items) (room + 1) (tag ∷ reader.old.input.now)) }
{
    match tag {
        0x53 => Ok(PatPart::Same(read_term(reader, scope, room)?)),
        0x54 => {
            let left = read_pat(reader, binds, scope, found, room)?;
            let right = read_pat(reader, binds, scope, found, room)?;
            Ok(PatPart::Both(left, right))
        }
        0x55 => {
            let left = read_free_pat(reader, scope, room)?;
            let right = read_free_pat(reader, scope, room)?;
            Ok(PatPart::Either(left, right))
        }
        0x56 => Ok(PatPart::Not(read_free_pat(reader, scope, room)?)),
        _ => Err(ReadFault::NotCanonical {
            at: reader.last_place(),
        }),
    }
}

// A pattern that binds no variable.
#[cycle(read)]
fn read_free_pat(
    reader: &mut Reader<'_>,
    scope: &Vec<Sense>,
    room: u32,
) -> Result<TermPat, ReadFault>
    ensures { Comes result (λ t. ReadsPat false pat (scope_of scope.now.items) room [] [] reader.old.input.now
        reader.new.input.now t) (Fails false pat (scope_of scope.now.items) room reader.old.input.now) }
{
    let mut found = Vec::new(reader.alloc);
    read_pat(reader, false, scope, &mut found, room)
}

// A row of patterns: from `least` to `most` of them. Where `binds` is false they may bind no variable.
#[derive(Clone, Copy)]
struct PatRow {
    least: u32,
    most: u32,
    binds: bool,
}

// The patterns of such a row. What they bind is added to `found`.
#[cycle(read)]
fn read_pats(
    reader: &mut Reader<'_>,
    row: PatRow,
    scope: &Vec<Sense>,
    found: &mut Vec<Sense>,
    room: u32,
) -> Result<Vec<TermPat>, ReadFault>
    requires { row.least ≤ row.most }
    ensures { Comes result (λ ts. ReadsPats row.binds pat (scope_of scope.now.items) room row.least row.most
        (senses_of found.old.items) (senses_of found.new.items) reader.old.input.now reader.new.input.now ts.items)
        (FailsRow row.binds pat (scope_of scope.now.items) room row.least row.most reader.old.input.now) }
{
    let count = reader.number(row.least, row.most)?;
    let mut pats = reader.list(count);
    for _i in 0..count {
        let pat = read_pat(reader, row.binds, scope, found, room);
        keep(&mut pats, pat)?;
    }
    Ok(pats)
}

// Patterns of names. What they bind is added to `found`.
#[cycle(read)]
pub(crate) fn read_name_pats(
    reader: &mut Reader<'_>,
    scope: &Vec<Sense>,
    found: &mut Vec<Sense>,
    room: u32,
) -> Result<Vec<TermPat>, ReadFault>
    ensures { Comes result (λ ts. ReadsPats true name_pat (scope_of scope.now.items) room 0 0xFFFFFFFF
        (senses_of found.old.items) (senses_of found.new.items) reader.old.input.now reader.new.input.now ts.items)
        (FailsRow true name_pat (scope_of scope.now.items) room 0 0xFFFFFFFF reader.old.input.now) }
{
    let count = reader.number(0, u32::MAX)?;
    let mut pats = reader.list(count);
    for _i in 0..count {
        let pat = read_name_pat(reader, true, scope, found, room);
        keep(&mut pats, pat)?;
    }
    Ok(pats)
}

// At most 8 pairs of patterns.
#[cycle(read)]
fn read_pat_pairs(
    reader: &mut Reader<'_>,
    binds: bool,
    scope: &Vec<Sense>,
    found: &mut Vec<Sense>,
    room: u32,
) -> Result<Vec<(TermPat, TermPat)>, ReadFault>
    ensures { Comes result (λ ps. ReadsPats binds (pair_of pat) (scope_of scope.now.items) room 0 8
        (senses_of found.old.items) (senses_of found.new.items) reader.old.input.now reader.new.input.now
        (map pair_tree ps.items)) (FailsRow binds (pair_of pat) (scope_of scope.now.items) room 0 8
        reader.old.input.now) }
{
    let count = reader.number(0, 8)?;
    let mut pairs = reader.list(count);
    for _i in 0..count {
        let key = read_pat(reader, binds, scope, found, room)?;
        let value = read_pat(reader, binds, scope, found, room);
        let pair = paired(key, value);
        keep(&mut pairs, pair)?;
    }
    Ok(pairs)
}
