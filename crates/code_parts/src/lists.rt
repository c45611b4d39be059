// Lists of what is read, one item after another.
ghost use Rattle.std.specs.Prelude.{◌≡◌, ◌++◌, ◌∷◌, ◌⊎◌, [], ℕ, List, IfOk, IfErr, IsOkAnd, true, false};
ghost use Rattle.calculus.specs.Kinds.{rest_number};
ghost use Rattle.calculus.specs.Order.{up_to};
ghost use Rattle.calculus.specs.Shape.{leaf};
ghost use Rattle.calculus.specs.Tree.{rest};
ghost use Rattle.calculus.specs.Variables.{bound};
ghost use Rattle.code_faults.specs.Scopes.{senses_of};
ghost use Rattle.code_faults.specs.declared.fault.ReadFault.TheVariants.{NoMemory};
ghost use Rattle.code_parts.specs.Keeping.{IsFallen, IsNoRest};
ghost use Rattle.code_parts.specs.Outcomes.{Comes};

use calculus::TermRest;
use code_faults::{ReadFault, Sense};
use code_fields::Reader;

/// Adds an item, where it was read.
pub fn keep<T: Drop>(items: &mut Vec<T>, item: Result<T, ReadFault>) -> Result<(), ReadFault>
    ensures kept { IfOk result (λ _. IsOkAnd item (λ x. items.new.items ≡ items.old.items ++ x ∷ [])) }
    ensures fails { IfErr result (λ e. (e ≡ NoMemory) ⊎ (item ≡ Err e)) }
{
    match item {
        Ok(item) => {
            items.push(item)?;
            Ok(())
        }
        Err(fault) => Err(fault),
    }
}

/// Adds a member that was read from `start` on, and tells its code, which does not fall below the one before it.
pub fn keep_in_order<'a, T: Drop>(
    reader: &Reader<'a>,
    start: &'a [u8],
    last: &[u8],
    members: &mut Vec<T>,
    member: Result<T, ReadFault>,
) -> Result<&'a [u8], ReadFault>
    ensures kept { IfOk result (λ c. IsOkAnd member (λ x. members.new.items ≡ members.old.items ++ x ∷ [])) }
    ensures code { IfOk result (λ c. (d : List ℕ) → start.now ≡ d ++ reader.now.input.now → c.now ≡ d) }
    ensures up { IfOk result (λ c. up_to last.now c.now ≡ true) }
    ensures fails { IfErr result (λ e. (e ≡ NoMemory) ⊎ ((member ≡ Err e) ⊎
        IsOkAnd member (λ x. IsFallen last.now start.now reader.now.input.now e))) }
{
    keep(members, member)?;
    reader.read_since(start, last)
}

/// A value with the one that was read after it.
pub fn paired<T: Drop>(first: T, second: Result<T, ReadFault>) -> Result<(T, T), ReadFault>
    ensures { Comes result (λ p. (p.0 ≡ first) × (second ≡ Ok p.1)) (λ e. second ≡ Err e) }
{
    match second {
        Ok(second) => Ok((first, second)),
        Err(fault) => Err(fault),
    }
}

/// The items that were read, with the remainder that stands behind them. Where that is a variable, it is added to
/// `found`.
pub fn with_rest<T: Drop>(
    reader: &mut Reader<'_>,
    binds: bool,
    found: &mut Vec<Sense>,
    items: Result<Vec<T>, ReadFault>,
) -> Result<(Vec<T>, TermRest), ReadFault>
    ensures items { IfOk result (λ p. items ≡ Ok p.0) }
    ensures is { IfOk result (λ p. reader.old.input.now ≡ rest_number p.1 ∷ reader.new.input.now) }
    ensures bound { IfOk result (λ p. senses_of found.new.items ≡ senses_of found.old.items ++ bound (leaf (rest p.1))) }
    ensures free { binds ≡ false → IfOk result (λ p. bound (leaf (rest p.1)) ≡ []) }
    ensures fails { IfErr result (λ e. (items ≡ Err e) ⊎ IsOkAnd items (λ xs. IsNoRest binds reader.old.input.now e)) }
{
    match items {
        Ok(items) => {
            let rest = reader.bound_remainder(binds, found)?;
            Ok((items, rest))
        }
        Err(fault) => Err(fault),
    }
}
