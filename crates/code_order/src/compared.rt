// Things that suit, in the order of their codes, which are not made.

ghost use Rattle.std.specs.Prelude.{◌≡◌, true, IfOk, All};
ghost use Rattle.calculus.specs.Order.{byte_cmp};
ghost use Rattle.code_order.specs.Made.{ascending_by};

use crate::coded::HasCode;
use rho_term::with_room;
use std::alloc::{AllocError, Global};
use std::cmp::Ordering;
use std::marker::Model;

/// A thing that suits, seen as the thing itself.
#[derive(Drop)]
pub(crate) struct Suited<T: HasCode> {
    item: T,
}

impl<T: HasCode> Model for Suited<T> {
    ghost Value = { T };

    ghost view = { λ a. a.item };

    ghost invariant = { λ a. T.is_suited a.item };
}

/// Whether all of these are seen to suit.
pub(crate) fn all_suit<T: HasCode>(items: &[T]) -> bool
    requires { All T.is_ready items.now }
    ensures { result ≡ true → All T.is_suited items.now }
{
    for item in items {
        if !item.suits() {
            return false;
        }
    }
    true
}

/// These, ascending in their codes, which are not made.
pub(crate) fn compared<T: HasCode>(alloc: Global, items: Vec<T>) -> Result<Vec<T>, AllocError>
    requires { All T.is_suited items.items }
    ensures { IfOk result (λ v. v.items ≡ ascending_by T.bytes items.items) }
{
    let mut suited = wrapped(alloc, items)?;
    suited.sort_by(order)?;
    unwrapped(alloc, suited)
}

fn wrapped<T: HasCode>(alloc: Global, items: Vec<T>) -> Result<Vec<Suited<T>>, AllocError>
    requires { All T.is_suited items.items }
    ensures { IfOk result (λ v. v.items ≡ items.items) }
{
    let mut suited = with_room(alloc, items.len());
    for item in items {
        suited.push(Suited { item })?;
    }
    Ok(suited)
}

fn unwrapped<T: HasCode>(alloc: Global, suited: Vec<Suited<T>>) -> Result<Vec<T>, AllocError>
    ensures { IfOk result (λ v. v.items ≡ suited.items) }
{
    let mut items = with_room(alloc, suited.len());
    for thing in suited {
        items.push(thing.item)?;
    }
    Ok(items)
}

fn order<T: HasCode>(a: &Suited<T>, b: &Suited<T>) -> Ordering
    ensures { result ≡ byte_cmp (T.bytes a.now) (T.bytes b.now) }
{
    a.item.order(&b.item)
}
