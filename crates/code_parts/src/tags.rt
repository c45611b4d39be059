// Tags of parts.
ghost use Rattle.std.specs.Prelude.{◌≡◌, ◌∷◌, ◌+◌, ◌≤◌, ◌<◌, ◌⊎◌, cond, false, IfOk, IfErr};
ghost use Rattle.code_faults.specs.Beginning.{Follows};
ghost use Rattle.code_faults.specs.Places.{Reaches};
ghost use Rattle.code_faults.specs.Tags.{is_form_tag, is_pat_form_tag};
ghost use Rattle.code_faults.specs.Wide.{is_wide_tag};
ghost use Rattle.code_faults.specs.declared.fault.ReadFault.TheVariants.{NotCanonical};
ghost use Rattle.code_parts.specs.Tagging.{IsEnd, HasNoRoom, IsBelow, IsTooWide};

use code_faults::ReadFault;
use code_fields::reader::{is_form, lacks_room};
use code_fields::{Reader, check_order};

/// Whether the byte is the tag of a part of a pattern that is no leaf.
pub fn is_pat_form(tag: u8) -> bool
    ensures { result ≡ is_pat_form_tag tag }
{
    matches!(tag, 0x20..=0x23 | 0x30..=0x34 | 0x53..=0x56)
}

/// The tag of a part whose code does not fall below the one before it: that of no form where none has room.
pub fn part_tag(reader: &mut Reader<'_>, last: &[u8], room: u32) -> Result<u8, ReadFault>
    ensures is { IfOk result (λ tag. reader.old.input.now ≡ tag ∷ reader.new.input.now) }
    ensures fits { IfOk result (λ tag. room ≡ 0 → is_form_tag tag ≡ false) }
    ensures up { IfOk result (λ tag. Reaches last.now reader.old.input.now) }
    ensures follows { IfOk result (λ tag. Follows last.now reader.old.input.now) }
    ensures fails { IfErr result (λ e. IsEnd reader.old.input.now e ⊎ (HasNoRoom is_form_tag room reader.old.input.now e ⊎
        IsBelow last.now room reader.old.input.now e)) }
{
    let start = reader.input;
    let tag = reader.byte()?;
    if lacks_room(room, is_form(tag)) {
        return Err(ReadFault::TooDeep { at: start.len() });
    }
    check_order(last, start)?;
    Ok(tag)
}

// The number of wide parts with one more part of this tag, after i parts. At most one part is wide,
// and at most 8 are not.
fn more_wide(wide: u32, i: u32, tag: u8, at: usize) -> Result<u32, ReadFault>
    requires { i < 9 }
    ensures is { IfOk result (λ n. n ≡ wide + cond (is_wide_tag tag) 1 0) }
    ensures one { IfOk result (λ n. n ≤ 1) }
    ensures thin { IfOk result (λ n. i + 1 ≤ 8 + n) }
    ensures place { IfErr result (λ e. e ≡ NotCanonical at) }
    ensures many { IfErr result (λ e. wide + cond (is_wide_tag tag) 1 0 ≤ 1 → i + 1 ≤ 8 + (wide + cond (is_wide_tag tag) 1 0) → ⊥) }
{
    if 0x50 <= tag && tag <= 0x56 {
        if 0 < wide {
            return Err(ReadFault::NotCanonical { at });
        }
        return Ok(1);
    }
    if wide > 1 || 8 + wide <= i {
        return Err(ReadFault::NotCanonical { at });
    }
    Ok(wide)
}

/// The tag of a part of a pattern, after i parts of which so many are wide, and how many are wide with it. It is
/// that of no form where none has room.
pub fn pat_tag(
    reader: &mut Reader<'_>,
    room: u32,
    wide: u32,
    i: u32,
) -> Result<(u8, u32), ReadFault>
    requires { i < 9 }
    ensures is { IfOk result (λ p. reader.old.input.now ≡ p.0 ∷ reader.new.input.now) }
    ensures fits { IfOk result (λ p. room ≡ 0 → is_pat_form_tag p.0 ≡ false) }
    ensures wide { IfOk result (λ p. p.1 ≡ wide + cond (is_wide_tag p.0) 1 0) }
    ensures one { IfOk result (λ p. p.1 ≤ 1) }
    ensures thin { IfOk result (λ p. i + 1 ≤ 8 + p.1) }
    ensures fails { IfErr result (λ e. IsEnd reader.old.input.now e ⊎ (HasNoRoom is_pat_form_tag room reader.old.input.now e ⊎
        IsTooWide wide i room reader.old.input.now e)) }
{
    let at = reader.place();
    let tag = reader.byte()?;
    if lacks_room(room, is_pat_form(tag)) {
        return Err(ReadFault::TooDeep { at });
    }
    let more = more_wide(wide, i, tag, at)?;
    Ok((tag, more))
}
