// Parts without constituents.
ghost use Rattle.std.specs.Prelude.{◌≡◌, ◌∷◌, ◌++◌, ℕ, List, [], IfOk, IfErr, IfSome, IfNone, false, true};
ghost use Rattle.calculus.specs.Form.{Scope, part, pat_part};
ghost use Rattle.rho_term.specs.Parts.{part_tree, pat_part_tree};
ghost use Rattle.code_faults.specs.Scopes.{scope_of, senses_of};
ghost use Rattle.code_faults.specs.Tags.{is_form_tag, is_pat_form_tag};
ghost use Rattle.code_faults.specs.declared.fault.ReadFault.TheVariants.{NoMemory};
ghost use Rattle.code_faults.specs.declared.sort.Sense.TheVariants.{Name};
ghost use Rattle.code_parts.specs.Outcomes.{Comes, Fails, ReadsPart, ReadsPatPart};

use code_faults::{ReadFault, Sense};
use code_fields::Reader;
use rho_term::{Part, PatPart};

/// The part that goes on so after its tag, which is that of no form.
pub fn leaf_part(reader: &mut Reader<'_>, tag: u8, scope: &Vec<Sense>) -> Result<Part, ReadFault>
    requires { is_form_tag tag ≡ false }
    ensures { (room : ℕ) → Comes result (λ p. ReadsPart part (scope_of scope.now.items) room (tag ∷ reader.old.input.now)
        reader.new.input.now (part_tree p)) (Fails true part (scope_of scope.now.items) room
        (tag ∷ reader.old.input.now)) }
{
    match tag {
        0x15 => Ok(Part::Fresh(reader.digest()?)),
        0x16 => Ok(Part::Var(reader.variable(scope, Sense::Process)?)),
        0x17 => Ok(Part::NameVar(reader.variable(scope, Sense::Name)?)),
        _ => Ok(Part::Ground(reader.ground(tag)?)),
    }
}

/// The part of a pattern that goes on so after its tag, which is that of no form. Where `binds` is false it may be
/// no variable; what it binds is added to `found`.
pub fn leaf_pat(
    reader: &mut Reader<'_>,
    tag: u8,
    binds: bool,
    found: &mut Vec<Sense>,
) -> Result<PatPart, ReadFault>
    requires { is_pat_form_tag tag ≡ false }
    ensures { (v : Scope) (room : ℕ) → Comes result (λ p. ReadsPatPart binds pat_part v room (senses_of found.old.items)
        (senses_of found.new.items) (tag ∷ reader.old.input.now) reader.new.input.now (pat_part_tree p))
        (Fails binds pat_part v room (tag ∷ reader.old.input.now)) }
{
    match tag {
        0x50 => {
            if !binds {
                return Err(ReadFault::NotCanonical {
                    at: reader.last_place(),
                });
            }
            found.push(Sense::Process)?;
            Ok(PatPart::Var)
        }
        0x52 => Ok(PatPart::Wild),
        0x57 => Ok(PatPart::Simple(reader.simple()?)),
        _ => Ok(PatPart::Ground(reader.ground(tag)?)),
    }
}

/// What follows the code of a name variable alone, where one may be bound and these bytes begin with it.
pub fn after_name_variable(binds: bool, bytes: &[u8]) -> Option<&[u8]>
    ensures binds { IfSome result (λ others. binds ≡ true) }
    ensures some { IfSome result (λ others. bytes.now ≡ 0 ∷ 0 ∷ 0 ∷ 1 ∷ 0x51 ∷ others.now) }
    ensures none { IfNone result (binds ≡ true → (y : List ℕ) → bytes.now ≡ 0 ∷ 0 ∷ 0 ∷ 1 ∷ 0x51 ∷ y → ⊥) }
{
    if !binds {
        return None;
    }
    match bytes {
        [a, b, c, d, tag, others @ ..] => {
            if u32::from_be_bytes([*a, *b, *c, *d]) == 1 && *tag == 0x51 {
                Some(others)
            } else {
                None
            }
        }
        _ => None,
    }
}

/// The list of this part of a pattern, which is a name variable alone. The variable is added to `found`, and these
/// bytes are left.
pub fn name_variable<'a, T: Drop>(
    reader: &mut Reader<'a>,
    others: &'a [u8],
    found: &mut Vec<Sense>,
    part: T,
) -> Result<Vec<T>, ReadFault>
    ensures left { IfOk result (λ v. reader.new.input.now ≡ others.now) }
    ensures is { IfOk result (λ v. v.items ≡ part ∷ []) }
    ensures found { IfOk result (λ v. found.new.items ≡ found.old.items ++ Name ∷ []) }
    ensures fails { IfErr result (λ e. e ≡ NoMemory) }
{
    reader.input = others;
    found.push(Sense::Name)?;
    let mut parts = reader.list(1);
    parts.push(part)?;
    Ok(parts)
}
