//! Parts in the order in which they were read, and values that are let go or boxed whatever their type.
ghost use Rattle.grammar.specs.declared.fault.Fault.TheVariants.{NoMemory};
ghost use Rattle.std.specs.Prelude.{◌≡◌, ◌+◌, ◌<◌, ◌-◌, ◌∷◌, ◌++◌, [], IfErr, IfOk, MatchResult, max};

use crate::part::Part;
use grammar::Fault;
use std::alloc::Global;

/// A first part.
pub fn start<T: Drop>(alloc: Global, first: Part<T>) -> Result<Part<Vec<T>>, Fault>
    ensures items { MatchResult result (λ p. p.value.items ≡ first.value ∷ []) (λ e. e ≡ NoMemory) }
    ensures height { IfOk result (λ p. p.height ≡ first.height) }
{
    let mut items = Vec::new(alloc);
    items.push(first.value)?;
    Ok(Part {
        value: items,
        height: first.height,
    })
}

/// One more part, after those that were read.
pub fn push<T: Drop>(parts: Part<Vec<T>>, next: Part<T>) -> Result<Part<Vec<T>>, Fault>
    ensures items { MatchResult result (λ p. p.value.items ≡ parts.value.items ++ next.value ∷ []) (λ e. e ≡ NoMemory) }
    ensures height { IfOk result (λ p. p.height ≡ max parts.height next.height) }
{
    let height = parts.height.max(next.height);
    let mut items = parts.value;
    items.push(next.value)?;
    Ok(Part {
        value: items,
        height,
    })
}

/// A key and its value.
pub fn pair<T>(key: Part<T>, value: Part<T>) -> Part<(T, T)>
    ensures value { result.value ≡ (key.value, value.value) }
    ensures height { result.height ≡ max key.height value.height }
{
    Part {
        height: key.height.max(value.height),
        value: (key.value, value.value),
    }
}

/// The fault, with a value let go.
pub fn give_up<T: Drop, U>(_value: T, fault: Fault) -> Result<U, Fault>
    ensures { result ≡ Err fault }
{
    Err(fault)
}

/// A list of one value.
pub fn alone<T: Drop>(alloc: Global, value: T) -> Result<Vec<T>, Fault>
    ensures { MatchResult result (λ vs. vs.items ≡ value ∷ []) (λ e. e ≡ NoMemory) }
{
    let mut values = Vec::new(alloc);
    values.push(value)?;
    Ok(values)
}

/// A list of two values.
pub fn two<T: Drop>(alloc: Global, first: T, second: T) -> Result<Vec<T>, Fault>
    ensures { MatchResult result (λ vs. vs.items ≡ first ∷ (second ∷ [])) (λ e. e ≡ NoMemory) }
{
    let mut values = Vec::new(alloc);
    values.push(first)?;
    values.push(second)?;
    Ok(values)
}

/// Two values in boxes.
pub fn boxed_two<T: Drop, U: Drop>(
    alloc: Global,
    first: T,
    second: U,
) -> Result<(Box<T>, Box<U>), Fault>
    ensures first { IfOk result (λ b. b.0.value ≡ first) }
    ensures second { IfOk result (λ b. b.1.value ≡ second) }
    ensures fails { IfErr result (λ e. e ≡ NoMemory) }
{
    let first = Box::new(alloc, first)?;
    let second = Box::new(alloc, second)?;
    Ok((first, second))
}
