// Scopes of bodies, with what stands in codes before them.
ghost use Rattle.std.specs.Prelude.{◌≡◌, ◌≤◌, ◌++◌, ◌∷◌, ◌+◌, ℕ, IfOk, IfErr, length, map, replicate, true};
ghost use Rattle.calculus.specs.Bytes.{be32};
ghost use Rattle.calculus.specs.Form.{Scope, part};
ghost use Rattle.calculus.specs.Kinds.{kind_number, origin_number};
ghost use Rattle.code_faults.specs.declared.sort.Sense.TheVariants.{Name};
ghost use Rattle.code_parts.specs.Outcomes.{Fails};

use calculus::{Kind, Origin};
use code_faults::{ReadFault, Sense};
use code_fields::Reader;
use std::alloc::{AllocError, Global};

/// The same scope.
pub fn copy_of(alloc: Global, scope: &Vec<Sense>) -> Result<Vec<Sense>, AllocError>
    ensures { IfOk result (λ v. v.items ≡ scope.now.items) }
{
    Vec::from_slice(alloc, scope.as_slice())
}

// The scope of the body of a `new` of so many names.
fn under_names(alloc: Global, scope: &Vec<Sense>, count: usize) -> Result<Vec<Sense>, AllocError>
    ensures { IfOk result (λ v. v.items ≡ scope.now.items ++ replicate count Name) }
{
    let mut inner = copy_of(alloc, scope)?;
    for _i in 0..count {
        inner.push(Sense::Name)?;
    }
    Ok(inner)
}

/// The kind of a receive, and the scope to which its binds are added.
pub fn receive_head(
    reader: &mut Reader<'_>,
    scope: &Vec<Sense>,
) -> Result<(Kind, Vec<Sense>), ReadFault>
    ensures is { IfOk result (λ h. reader.old.input.now ≡ kind_number h.0 ∷ reader.new.input.now) }
    ensures scope { IfOk result (λ h. h.1.items ≡ scope.now.items) }
    ensures fails { IfErr result (λ e. (v : Scope) (room : ℕ) → Fails true part v (room + 1) (0x31 ∷ reader.old.input.now) e) }
{
    let kind = reader.kind()?;
    let inner = copy_of(reader.alloc, scope)?;
    Ok((kind, inner))
}

/// The names of a `new`, and the scope of its body.
pub fn new_head(
    reader: &mut Reader<'_>,
    scope: &Vec<Sense>,
) -> Result<(Vec<Origin>, Vec<Sense>), ReadFault>
    ensures is { IfOk result (λ h. reader.old.input.now ≡ be32 (length h.0.items) ++ map origin_number h.0.items ++ reader.new.input.now) }
    ensures some { IfOk result (λ h. 1 ≤ length h.0.items) }
    ensures scope { IfOk result (λ h. h.1.items ≡ scope.now.items ++ replicate (length h.0.items) Name) }
    ensures fails { IfErr result (λ e. (v : Scope) (room : ℕ) → Fails true part v (room + 1) (0x32 ∷ reader.old.input.now) e) }
{
    let names = reader.origins()?;
    let inner = under_names(reader.alloc, scope, names.len())?;
    Ok((names, inner))
}
